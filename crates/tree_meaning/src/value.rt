// The values of trees, and what operators make of numbers.

ghost use Rattle.std.specs.Prelude.{◌≡◌, ◌%◌};
ghost use Rattle.gg_base.specs.Arithmetic.{shifted_left, shifted_right};
ghost use Rattle.tree_meaning.specs.Operators.{operated, converted, quotient, remainder};

use gg_base::{Size, w32};
use tree_core::Tok;

/// What the evaluation of a tree comes to.
#[derive(Clone, Copy, Debug, PartialEq, Eq)]
pub enum Value {
    Number(u32),
    ZeroDivisor,
    /// Memory outside the data area was read, or a local that was not written.
    Wild,
}

/// What a tree stands for: a value, or a place that has one.
#[derive(Clone, Copy, Debug, PartialEq, Eq)]
pub enum Meaning {
    Of(Value),
    Local(u32),
    Argument(u32),
    Memory(Size, u32),
}

/// What an operator with two kids makes of numbers.
pub(crate) fn operated(tok: Tok, x: u32, y: u32) -> Value
    ensures { result ≡ operated tok x y }
{
    match tok {
        Tok::Plus => Value::Number(w32::add(x, y)),
        Tok::Minus => Value::Number(w32::sub(x, y)),
        Tok::Mul => Value::Number(w32::mul(x, y)),
        Tok::Div => match w32::div(x, y) {
            Some(quotient) => Value::Number(quotient),
            None => Value::ZeroDivisor,
        },
        Tok::Mod => match w32::div(x, y) {
            Some(quotient) => Value::Number(w32::sub(x, w32::mul(quotient, y))),
            None => Value::ZeroDivisor,
        },
        Tok::And => Value::Number(w32::and(x, y)),
        Tok::Or => Value::Number(w32::or(x, y)),
        Tok::Xor => Value::Number(w32::xor(x, y)),
        Tok::Lsh => Value::Number(left(x, y)),
        Tok::Rsh => Value::Number(right(x, y)),
        _ => Value::Wild,
    }
}

/// What an operator with one kid makes of a number.
pub(crate) fn converted(tok: Tok, x: u32) -> Value
    ensures { result ≡ converted tok x }
{
    match tok {
        Tok::Neg => Value::Number(w32::neg(x)),
        Tok::Com => Value::Number(w32::com(x)),
        Tok::Sxb => Value::Number(w32::sext8(x)),
        Tok::Zxb => Value::Number(w32::zext8(x)),
        Tok::Sxw => Value::Number(w32::sext16(x)),
        Tok::Zxw => Value::Number(w32::zext16(x)),
        Tok::Ncb => Value::Number(w32::zext8(x)),
        Tok::Ncw => Value::Number(w32::zext16(x)),
        _ => Value::Wild,
    }
}

// Shifts take their count modulo 32.
fn left(x: u32, count: u32) -> u32
    ensures { result ≡ shifted_left (count % 32) x }
{
    x.wrapping_mul(1 << (count % 32))
}

fn right(x: u32, count: u32) -> u32
    ensures { result ≡ shifted_right (count % 32) x }
{
    let places = count % 32;
    if 0x8000_0000 <= x {
        w32::com(w32::com(x) >> places)
    } else {
        x >> places
    }
}
