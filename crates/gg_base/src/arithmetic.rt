// Arithmetic on 32 bits, as the C subset and the VAX have it: sums and products wrap, and a signed number is read from the same bits.
ghost use Rattle.std.specs.Prelude.{◌≡◌};
ghost use Rattle.gg_base.specs.Arithmetic.{add32, sub32, mul32, and32, or32, xor32, neg32, com32, sext8, sext16, zext8, zext16};
ghost use Rattle.gg_base.specs.Arithmetic.{div32, ash32, magnitude, is_negative, shifted_left, shifted_right};

/// The sum, on 32 bits.
pub fn add(a: u32, b: u32) -> u32
    ensures { result ≡ add32 a b }
{
    a.wrapping_add(b)
}

/// The difference `a - b`, on 32 bits.
pub fn sub(a: u32, b: u32) -> u32
    ensures { result ≡ sub32 a b }
{
    a.wrapping_sub(b)
}

/// The product, on 32 bits.
pub fn mul(a: u32, b: u32) -> u32
    ensures { result ≡ mul32 a b }
{
    a.wrapping_mul(b)
}

/// Bitwise and.
pub fn and(a: u32, b: u32) -> u32
    ensures { result ≡ and32 a b }
{
    a & b
}

/// Bitwise or.
pub fn or(a: u32, b: u32) -> u32
    ensures { result ≡ or32 a b }
{
    a | b
}

/// Bitwise exclusive or.
pub fn xor(a: u32, b: u32) -> u32
    ensures { result ≡ xor32 a b }
{
    a ^ b
}

/// The negative, on 32 bits; that of -2147483648 is itself.
pub fn neg(a: u32) -> u32
    ensures { result ≡ neg32 a }
{
    0_u32.wrapping_sub(a)
}

/// The complement: every bit turned.
pub fn com(a: u32) -> u32
    ensures { result ≡ com32 a }
{
    u32::MAX - a
}

/// The low byte with its sign copied to 32 bits.
pub fn sext8(a: u32) -> u32
    ensures { result ≡ sext8 a }
{
    let low = a % 0x100;
    if low < 0x80 { low } else { low + 0xffff_ff00 }
}

/// The low word with its sign copied to 32 bits.
pub fn sext16(a: u32) -> u32
    ensures { result ≡ sext16 a }
{
    let low = a % 0x1_0000;
    if low < 0x8000 { low } else { low + 0xffff_0000 }
}

/// The low byte with zeros above.
pub fn zext8(a: u32) -> u32
    ensures { result ≡ zext8 a }
{
    a % 0x100
}

/// The low word with zeros above.
pub fn zext16(a: u32) -> u32
    ensures { result ≡ zext16 a }
{
    a % 0x1_0000
}

/// The signed quotient `a / b`, truncated towards zero; -2147483648 / -1 is -2147483648. None exactly where `b` is 0.
pub fn div(a: u32, b: u32) -> Option<u32>
    ensures { result ≡ div32 a b }
{
    if b == 0 {
        return None;
    }
    let quotient = magnitude(a) / magnitude(b);
    if is_negative(a) == is_negative(b) {
        Some(quotient)
    } else {
        Some(neg(quotient))
    }
}

/// `a` shifted by the signed low byte of `count`: left for positive counts, 32 and more giving 0, and right with the sign copied for
/// negative ones, as the VAX shifts (VAX Architecture Handbook, ASHL).
pub fn ash(count: u32, a: u32) -> u32
    ensures { result ≡ ash32 count a }
{
    let low = count % 0x100;
    if low < 0x80 {
        shifted_left(low, a)
    } else {
        shifted_right(0x100 - low, a)
    }
}

fn is_negative(a: u32) -> bool
    ensures { result ≡ is_negative a }
{
    0x8000_0000 <= a
}

// The absolute value of a signed number.
fn magnitude(a: u32) -> u32
    ensures { result ≡ magnitude a }
{
    if is_negative(a) { neg(a) } else { a }
}

fn shifted_left(places: u32, a: u32) -> u32
    ensures { result ≡ shifted_left places a }
{
    if places < 32 {
        a.wrapping_mul(1 << places)
    } else {
        0
    }
}

fn shifted_right(places: u32, a: u32) -> u32
    ensures { result ≡ shifted_right places a }
{
    let places = places.min(31);
    if is_negative(a) {
        com(com(a) >> places)
    } else {
        a >> places
    }
}
