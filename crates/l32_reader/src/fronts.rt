// Words, numbers and names at the front of some bytes.
ghost use Rattle.std.specs.Prelude.{◌≡◌, ◌+◌, ◌≤◌, ◌^◌, length, min, IfSome};
ghost use Rattle.std.specs.Option.{option_copied, option_map};
ghost use Rattle.std.specs.Str.Parse.{digits_value, AllDigits};
ghost use Rattle.gg_base.specs.Fronts.{run_len};
ghost use Rattle.gg_base.specs.Names.{is_name_part};
ghost use Rattle.vax_reader.specs.Fronts.{strip, number_front, up_to, from_one, below_zero, signed_front, offset_front};
ghost use Rattle.vax_reader.specs.Fronts.{name_front};

use gg_base::fronts::digits_len;
use gg_base::limits::TEXT_NAME_LIMIT;
use vax_core::valid::{is_name_part, is_name_start};

/// The greatest number that stands behind a sign.
const SIGN: u32 = 0x8000_0000;

/// The greatest number without a sign.
const GREATEST: u32 = 0x7fff_ffff;

/// What is left behind a word that stands at the front.
pub fn strip<'a>(word: &[u8], bytes: &'a [u8]) -> Option<&'a [u8]>
    ensures { strip word.now bytes.now ≡ option_copied result }
{
    bytes.strip_prefix(word)
}

fn value(digits: &[u8]) -> u32
    requires { AllDigits 10 digits.now }
    ensures { result ≡ min (digits_value 10 digits.now) (2 ^ 31 + 1) }
{
    let mut n: u64 = 0;
    for b in digits {
        n = (n * 10 + u64::from(*b - b'0')).min(u64::from(SIGN) + 1);
    }
    n as u32
}

/// The number from 0 to 2147483648 at the front, without a leading zero.
#[tactic(auto, unfolding(vax_reader::specs::Fronts::number_front))]
pub fn number(bytes: &[u8]) -> Option<(u32, &[u8])>
    ensures { number_front bytes.now ≡ option_map (λ x. (x.0, x.1.now)) result }
{
    let len = digits_len(bytes);
    let (digits, rest) = bytes.split_at(len);
    match digits {
        [] => return None,
        [b'0', _, ..] => return None,
        _ => {}
    }
    let n = value(digits);
    if n > SIGN {
        return None;
    }
    Some((n, rest))
}

/// A number that is no more than the limit.
pub fn up_to(limit: u32, bytes: &[u8]) -> Option<(u32, &[u8])>
    ensures found { up_to limit bytes.now ≡ option_map (λ x. (x.0, x.1.now)) result }
    ensures within { IfSome result (λ x. x.0 ≤ limit) }
{
    let (n, rest) = number(bytes)?;
    if n <= limit { Some((n, rest)) } else { None }
}

/// A number from 1 to the limit.
pub fn from_one(limit: u32, bytes: &[u8]) -> Option<(u32, &[u8])>
    ensures { from_one limit bytes.now ≡ option_map (λ x. (x.0, x.1.now)) result }
{
    let (n, rest) = up_to(limit, bytes)?;
    if 1 <= n { Some((n, rest)) } else { None }
}

// The number behind a sign, taken below zero.
fn below_zero(limit: u32, bytes: &[u8]) -> Option<(u32, &[u8])>
    ensures { below_zero limit bytes.now ≡ option_map (λ x. (x.0, x.1.now)) result }
{
    let (n, rest) = from_one(limit, bytes)?;
    Some((n.wrapping_neg(), rest))
}

/// A number from -2147483648 to 2147483647, on 32 bits.
#[tactic(auto, unfolding(vax_reader::specs::Fronts::signed_front))]
pub fn signed(bytes: &[u8]) -> Option<(u32, &[u8])>
    ensures { signed_front bytes.now ≡ option_map (λ x. (x.0, x.1.now)) result }
{
    if let Some((n, rest)) = number(bytes) {
        return if n <= GREATEST { Some((n, rest)) } else { None };
    }
    let rest = strip(b"-", bytes)?;
    below_zero(SIGN, rest)
}

/// The offset behind a name, on 32 bits: a sign and a number from 1 to 2147483647, or nothing, which is 0.
#[tactic(auto, unfolding(vax_reader::specs::Fronts::offset_front))]
pub fn offset(bytes: &[u8]) -> Option<(u32, &[u8])>
    ensures { offset_front bytes.now ≡ option_map (λ x. (x.0, x.1.now)) result }
{
    if let Some(rest) = strip(b"+", bytes) {
        return from_one(GREATEST, rest);
    }
    if let Some(rest) = strip(b"-", bytes) {
        return below_zero(GREATEST, rest);
    }
    Some((0, bytes))
}

fn name_part_len(bytes: &[u8]) -> usize
    ensures len { result ≡ run_len is_name_part bytes.now }
    ensures within { result ≤ length bytes.now }
{
    bytes
        .iter()
        .position(|b| !is_name_part(*b))
        .unwrap_or(bytes.len())
}

/// A name of at most 64 bytes.
pub fn name(bytes: &[u8]) -> Option<(&[u8], &[u8])>
    ensures { name_front bytes.now ≡ option_map (λ x. (x.0.now, x.1.now)) result }
{
    let [first, others @ ..] = bytes else {
        return None;
    };
    if !is_name_start(*first) {
        return None;
    }
    let len = name_part_len(others);
    if len >= TEXT_NAME_LIMIT {
        return None;
    }
    Some((&bytes[..len + 1], &bytes[len + 1..]))
}
