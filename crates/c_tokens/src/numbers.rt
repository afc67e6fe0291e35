// Numbers.
ghost use Rattle.std.specs.Prelude.{◌≡◌, ◌≤◌, ◌<◌, ◌^◌, length, IfSome};
ghost use Rattle.c_tokens.specs.Numbers.{number_behind, hexadecimal, number_behind_zero, number_of};

use crate::letters::digit_value;

const DECIMAL_LIMIT: u64 = 2147483647;

const WORD_LIMIT: u64 = 4294967295;

/// The number that the digits write; none where one is no digit of the base or the number passes the limit.
pub fn number_in(base: u64, limit: u64, digits: &[u8]) -> Option<u32>
    requires base { base ≤ 16 }
    requires limit { limit < 2 ^ 32 }
    ensures is { result ≡ number_behind base limit 0 digits.now }
    ensures within { IfSome result (λ v. v ≤ limit) }
{
    let mut number: u64 = 0;
    for digit in digits {
        let value = digit_value(*digit);
        if value >= base {
            return None;
        }
        number = number * base + value;
        if number > limit {
            return None;
        }
    }
    Some(number as u32)
}

fn hexadecimal(digits: &[u8]) -> Option<u32>
    ensures { result ≡ hexadecimal digits.now }
{
    if digits.is_empty() {
        return None;
    }
    number_in(16, WORD_LIMIT, digits)
}

fn number_behind_zero(digits: &[u8]) -> Option<u32>
    ensures { result ≡ number_behind_zero digits.now }
{
    let [first, others @ ..] = digits else {
        return Some(0);
    };
    if *first == b'x' || *first == b'X' {
        return hexadecimal(others);
    }
    number_in(8, WORD_LIMIT, digits)
}

/// The number that a word writes which begins with a digit.
pub fn number_of(word: &[u8]) -> Option<u32>
    ensures { result ≡ number_of word.now }
{
    let [first, others @ ..] = word else {
        return None;
    };
    if *first == b'0' {
        return number_behind_zero(others);
    }
    number_in(10, DECIMAL_LIMIT, word)
}
