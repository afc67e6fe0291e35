// Elements of strings and of character constants.
ghost use Rattle.std.specs.Prelude.{◌≡◌, ◌≤◌, ◌<◌, length, IfSome};
ghost use Rattle.gg_base.specs.declared.limits.TheConstants.{SOURCE_LIMIT};
ghost use Rattle.c_tokens.specs.Escapes.{named_escape, byte_of, octal_escape, hexadecimal_escape, one_longer, numeric_escape};
ghost use Rattle.c_tokens.specs.Escapes.{escape_of, element_of};

use crate::letters::digits_len;
use crate::numbers::number_in;

fn named_escape(byte: u8) -> Option<u8>
    ensures { result ≡ named_escape byte }
{
    match byte {
        b'n' => Some(b'\n'),
        b't' => Some(b'\t'),
        b'r' => Some(b'\r'),
        b'a' => Some(7),
        b'b' => Some(8),
        b'f' => Some(12),
        b'v' => Some(11),
        b'\\' => Some(b'\\'),
        b'\'' => Some(b'\''),
        b'"' => Some(b'"'),
        _ => None,
    }
}

fn byte_of(base: u64, len: usize, text: &[u8]) -> Option<(u8, usize)>
    requires base { base ≤ 16 }
    requires within { len ≤ length text.now }
    ensures is { result ≡ byte_of base len text.now }
    ensures len { IfSome result (λ x. x.1 ≡ len) }
{
    let value = number_in(base, 255, &text[..len])?;
    Some((value as u8, len))
}

fn octal_escape(text: &[u8]) -> Option<(u8, usize)>
    ensures is { result ≡ octal_escape text.now }
    ensures within { IfSome result (λ x. (1 ≤ x.1) × (x.1 ≤ length text.now)) }
{
    let front = text.len().min(3);
    let len = digits_len(8, &text[..front]);
    if len == 0 {
        return None;
    }
    byte_of(8, len, text)
}

fn hexadecimal_escape(text: &[u8]) -> Option<(u8, usize)>
    ensures is { result ≡ hexadecimal_escape text.now }
    ensures within { IfSome result (λ x. (1 ≤ x.1) × (x.1 ≤ length text.now)) }
{
    let len = digits_len(16, text);
    if len == 0 || len > 2 {
        return None;
    }
    byte_of(16, len, text)
}

fn one_longer(part: Option<(u8, usize)>) -> Option<(u8, usize)>
    requires { IfSome part (λ x. x.1 < SOURCE_LIMIT) }
    ensures { result ≡ one_longer part }
{
    let (value, len) = part?;
    Some((value, len + 1))
}

fn numeric_escape(text: &[u8]) -> Option<(u8, usize)>
    requires { length text.now < SOURCE_LIMIT }
    ensures is { result ≡ numeric_escape text.now }
    ensures within { IfSome result (λ x. (1 ≤ x.1) × (x.1 ≤ length text.now)) }
{
    let [first, digits @ ..] = text else {
        return None;
    };
    if *first == b'x' {
        return one_longer(hexadecimal_escape(digits));
    }
    octal_escape(text)
}

/// The escape behind a backslash: the byte that it stands for, and its length.
pub fn escape_of(text: &[u8]) -> Option<(u8, usize)>
    requires { length text.now < SOURCE_LIMIT }
    ensures is { result ≡ escape_of text.now }
    ensures within { IfSome result (λ x. (1 ≤ x.1) × (x.1 ≤ length text.now)) }
{
    let [first, ..] = text else {
        return None;
    };
    match named_escape(*first) {
        Some(value) => Some((value, 1)),
        None => numeric_escape(text),
    }
}

/// The element at the front, with an escape's value where a backslash stands there, and its length.
pub fn element_of(text: &[u8]) -> Option<(u8, usize)>
    requires { length text.now ≤ SOURCE_LIMIT }
    ensures is { result ≡ element_of text.now }
    ensures within { IfSome result (λ x. (1 ≤ x.1) × (x.1 ≤ length text.now)) }
{
    let [first, others @ ..] = text else {
        return None;
    };
    if *first == b'\\' {
        return one_longer(escape_of(others));
    }
    Some((*first, 1))
}
