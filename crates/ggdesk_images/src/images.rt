// Rows of the subject `images`, each of which is written with what is said of it. In a text ~ stands for a tab and | for a line feed, and a
// line behind a number and a * stands so many times.
//
// `text T`: of the text's image its length, a sum of its bytes, and the first 64 of them in hexadecimal; or why it has none. Where the image
//   isn't read back as the text, that is said.
// `code C`: the same of the text with an empty data area and with C behind the entry of `_main`.
// `bytes H`: the text whose image these bytes are, in hexadecimal; or that there is none.
use crate::digits::{bytes_of, put_bytes};
use crate::rows::{folded, unfolded};
use gg_base::NoMemory;
use std::alloc::Global;
use vax_image::{DecodeFault, ImageFault, decode, encode};
use vax_reader::{AsmFault, read_code};
use vax_writer::write_code;

// How many bytes of an image are shown.
const SHOWN: usize = 64;

const HEAD: &str = "~.data|~.text|~.globl~_main|_main:|~.word~0|";

// The bytes of an image, of which each counts 31 times as much as the one behind it.
fn sum_of(image: &[u8]) -> u32 {
    let mut sum: u32 = 0;
    for byte in image {
        sum = sum.wrapping_mul(31).wrapping_add(u32::from(*byte));
    }
    sum
}

// The text of an image's code; none where the bytes are no image.
fn text_of(alloc: Global, image: &[u8]) -> Result<Option<String>, NoMemory> {
    let code = match decode(alloc, image) {
        Ok(code) => code,
        Err(DecodeFault::NoMemory) => return Err(NoMemory),
        Err(DecodeFault::NotImage) => return Ok(None),
    };
    let mut text = String::new(alloc);
    write_code(&code, &mut text)?;
    Ok(Some(text))
}

fn put_image(alloc: Global, image: &[u8], text: &str, told: &mut String) -> Result<(), NoMemory> {
    let again = match text_of(alloc, image)? {
        Some(again) => again.as_str() == text,
        None => false,
    };
    let length = image.len();
    let sum = sum_of(image);
    write!(told, "{length} bytes, sum {sum:08x}:")?;
    put_bytes(image.get(..SHOWN).unwrap_or(image), told)?;
    if length > SHOWN {
        told.push_str(" ..")?;
    }
    told.push_str(if again { "\n" } else { ", not read back\n" })?;
    Ok(())
}

fn answer_text(alloc: Global, text: &str, told: &mut String) -> Result<(), NoMemory> {
    let code = match read_code(alloc, text.as_bytes()) {
        Ok(code) => code,
        Err(AsmFault::Line { line, kind }) => return Ok(writeln!(told, "line {line}: {kind:?}")?),
        Err(AsmFault::NoMemory) => return Err(NoMemory),
    };
    match encode(alloc, &code) {
        Ok(image) => put_image(alloc, image.as_slice(), text, told),
        Err(ImageFault::Unlinked) => Ok(told.push_str("can't be run\n")?),
        Err(ImageFault::TooLarge) => Ok(told.push_str("too large\n")?),
        Err(ImageFault::NoMemory) => Err(NoMemory),
    }
}

fn answer_bytes(alloc: Global, digits: &str, told: &mut String) -> Result<(), NoMemory> {
    let Some(image) = bytes_of(alloc, digits)? else {
        return Ok(told.push_str("no bytes\n")?);
    };
    match text_of(alloc, image.as_slice())? {
        Some(text) => {
            let row = folded(alloc, text.as_str())?;
            Ok(writeln!(told, "{row}")?)
        }
        None => Ok(told.push_str("no image\n")?),
    }
}

fn answer_row(alloc: Global, row: &str, told: &mut String) -> Result<(), NoMemory> {
    write!(told, "{row} -> ")?;
    match row.split_once(' ') {
        Some(("text", lines)) => answer_text(alloc, &unfolded(alloc, lines)?, told),
        Some(("code", lines)) => {
            let row = format!(in alloc; "{HEAD}{lines}")?;
            answer_text(alloc, &unfolded(alloc, &row)?, told)
        }
        Some(("bytes", digits)) => answer_bytes(alloc, digits, told),
        _ => Ok(told.push_str("no row\n")?),
    }
}

/// Adds each row with what is said of its text or its bytes.
pub fn answer_images(alloc: Global, rows: &str, told: &mut String) -> Result<(), NoMemory> {
    for row in rows.lines() {
        answer_row(alloc, row, told)?;
    }
    Ok(())
}
