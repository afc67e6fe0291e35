// Classes of bytes, and how long a run of one class is.
ghost use Rattle.std.specs.Prelude.{◌≡◌, ◌≤◌, length};
ghost use Rattle.gg_base.specs.Fronts.{run_len};
ghost use Rattle.c_tokens.specs.Letters.{is_blank, is_letter, is_digit, in_word, digit_value, is_digit_of};

/// Whether the byte parts tokens: a space, TAB, LF, CR or FF.
pub fn is_blank(byte: u8) -> bool
    ensures { result ≡ is_blank byte }
{
    byte == b' ' || byte == b'\t' || byte == b'\n' || byte == b'\r' || byte == 12
}

/// Whether a name may begin with the byte.
pub fn is_letter(byte: u8) -> bool
    ensures { result ≡ is_letter byte }
{
    byte.is_ascii_alphabetic() || byte == b'_'
}

/// Whether a number may begin with the byte.
pub fn is_digit(byte: u8) -> bool
    ensures { result ≡ is_digit byte }
{
    byte.is_ascii_digit()
}

fn in_word(byte: u8) -> bool
    ensures { result ≡ in_word byte }
{
    is_letter(byte) || is_digit(byte)
}

/// The value of a digit of base 16; 16 for any other byte.
pub fn digit_value(byte: u8) -> u64
    ensures value { result ≡ digit_value byte }
    ensures small { result ≤ 16 }
{
    match byte {
        b'0'..=b'9' => u64::from(byte - b'0'),
        b'A'..=b'F' => u64::from(byte - b'A') + 10,
        b'a'..=b'f' => u64::from(byte - b'a') + 10,
        _ => 16,
    }
}

/// How long the word at the front is.
pub fn word_len(text: &[u8]) -> usize
    ensures len { result ≡ run_len in_word text.now }
    ensures bound { result ≤ length text.now }
{
    text.iter()
        .position(|byte| !in_word(*byte))
        .unwrap_or(text.len())
}

/// How many digits of the base stand at the front.
pub fn digits_len(base: u64, text: &[u8]) -> usize
    ensures len { result ≡ run_len (is_digit_of base) text.now }
    ensures bound { result ≤ length text.now }
{
    text.iter()
        .position(|byte| digit_value(*byte) >= base)
        .unwrap_or(text.len())
}
