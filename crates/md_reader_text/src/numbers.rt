// Decimal numbers.
ghost use Rattle.std.specs.Prelude.{◌≡◌, ◌≤◌, IfSome};
ghost use Rattle.md_reader_text.specs.Numbers.{number_from, number, positive, negative, integer};

fn number_from(most: u32, digits: &[u8]) -> Option<u32>
    ensures is { result ≡ number_from most 0 digits.now }
    ensures bound { IfSome result (λ n. n ≤ most) }
{
    let mut value: u32 = 0;
    for byte in digits {
        if !byte.is_ascii_digit() {
            return None;
        }
        let longer = u64::from(value) * 10 + u64::from(*byte - b'0');
        value = longer.min(u64::from(most)) as u32;
    }
    Some(value)
}

/// The decimal number, without leading zeros; one that is greater than `most` counts as `most`.
pub fn number(most: u32, word: &[u8]) -> Option<u32>
    ensures is { result ≡ number most word.now }
    ensures bound { IfSome result (λ n. n ≤ most) }
{
    match word {
        [] => None,
        [b'0', _, ..] => None,
        _ => number_from(most, word),
    }
}

fn positive(size: u32) -> Option<i32>
    ensures { result ≡ positive size }
{
    if size <= 2_147_483_647 {
        Some(size as i32)
    } else {
        None
    }
}

fn negative(size: u32) -> Option<i32>
    ensures { result ≡ negative size }
{
    if size == 0 || size > 2_147_483_648 {
        return None;
    }
    Some(-1 - (size - 1) as i32)
}

/// The decimal number of 32 bits with its sign, without leading zeros, and no `-0`.
pub fn integer(word: &[u8]) -> Option<i32>
    ensures { result ≡ integer word.now }
{
    match word {
        [b'-', digits @ ..] => negative(number(2_147_483_649, digits)?),
        _ => positive(number(2_147_483_649, word)?),
    }
}
