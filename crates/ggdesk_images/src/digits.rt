// Bytes as pairs of digits in hexadecimal.
use std::alloc::{AllocError, Global};

fn byte_of(high: u8, low: u8) -> Option<u8> {
    let high = char::from(high).to_digit(16)?;
    let low = char::from(low).to_digit(16)?;
    u8::try_from(high * 16 + low).ok()
}

/// The bytes that a word's digits name; none where the word is anything else.
pub fn bytes_of(alloc: Global, word: &str) -> Result<Option<Vec<u8>>, AllocError> {
    let mut bytes = Vec::new(alloc);
    for pair in word.as_bytes().chunks(2) {
        let byte = match pair {
            [high, low] => byte_of(*high, *low),
            _ => None,
        };
        match byte {
            Some(byte) => bytes.push(byte)?,
            None => return Ok(None),
        }
    }
    Ok(Some(bytes))
}

/// Adds each byte in two digits, with a blank before it.
pub fn put_bytes(bytes: &[u8], told: &mut String) -> Result<(), AllocError> {
    for byte in bytes {
        write!(told, " {byte:02x}")?;
    }
    Ok(())
}
