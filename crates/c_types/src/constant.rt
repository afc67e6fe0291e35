// Values of constant expressions.
ghost use Rattle.std.specs.Prelude.{◌≡◌};
ghost use Rattle.gg_base.specs.Numbers.{truth};
ghost use Rattle.c_types.specs.Typed.{expression_of};
ghost use Rattle.c_types.specs.Constants.{converted, apply_unary, apply, scale, advanced, retreated, distance, is_constant};
ghost use Rattle.c_types.specs.Constants.{value_of, constant_of};

use crate::typed::{ArithmeticOperator, Expression, UnaryOperator};
use crate::types::CType;
use gg_base::w32;

/// What becomes of a value that is converted to a type: an integer type keeps its low bytes, with their sign copied
/// where it is signed.
#[tactic(auto, unfolding(crate::specs::Constants::converted))]
pub fn convert(to: CType, value: u32) -> u32
    ensures { result ≡ converted to value }
{
    match to {
        CType::Void => value,
        CType::Integer(of) => of.keep(value),
        CType::Pointer(_, _) => value,
    }
}

/// 1 for true, 0 for false.
pub fn truth(holds: bool) -> u32
    ensures { result ≡ truth holds }
{
    if holds { 1 } else { 0 }
}

/// The value of an operator on one operand.
#[tactic(auto, unfolding(crate::specs::Constants::apply_unary))]
pub fn apply_unary(op: UnaryOperator, value: u32) -> u32
    ensures { result ≡ apply_unary op value }
{
    match op {
        UnaryOperator::Plus => value,
        UnaryOperator::Minus => w32::neg(value),
        UnaryOperator::Complement => w32::com(value),
        UnaryOperator::Not => truth(value == 0),
    }
}

/// The value of an operator on two whole numbers; None where it traps, at a zero divisor.
#[tactic(auto, unfolding(crate::specs::Constants::apply))]
pub fn apply(op: ArithmeticOperator, a: u32, b: u32) -> Option<u32>
    ensures { result ≡ apply op a b }
{
    match op {
        ArithmeticOperator::Add => Some(w32::add(a, b)),
        ArithmeticOperator::Subtract => Some(w32::sub(a, b)),
        ArithmeticOperator::Multiply => Some(w32::mul(a, b)),
        ArithmeticOperator::Divide => w32::div(a, b),
        ArithmeticOperator::Remainder => match w32::div(a, b) {
            None => None,
            Some(quotient) => Some(w32::sub(a, w32::mul(quotient, b))),
        },
        ArithmeticOperator::And => Some(w32::and(a, b)),
        ArithmeticOperator::Xor => Some(w32::xor(a, b)),
        ArithmeticOperator::Or => Some(w32::or(a, b)),
        ArithmeticOperator::ShiftLeft => Some(w32::ash(w32::and(b, 31), a)),
        ArithmeticOperator::ShiftRight => Some(w32::ash(w32::neg(w32::and(b, 31)), a)),
    }
}

/// The bytes of what a pointer of this type points to, by which numbers are scaled; 1 where it is no pointer.
#[tactic(auto, unfolding(crate::specs::Constants::scale))]
pub fn scale(pointer: CType) -> u32
    ensures { result ≡ scale pointer }
{
    match pointer {
        CType::Void => 1,
        CType::Integer(_) => 1,
        CType::Pointer(to, stars) => CType::target(to, stars).size(),
    }
}

/// A pointer of this type plus a number of elements.
#[tactic(auto, unfolding(crate::specs::Constants::advanced))]
pub fn advance(of: CType, pointer: u32, count: u32) -> u32
    ensures { result ≡ advanced of pointer count }
{
    w32::add(pointer, w32::mul(count, scale(of)))
}

/// A pointer of this type minus a number of elements.
#[tactic(auto, unfolding(crate::specs::Constants::retreated))]
pub fn retreat(of: CType, pointer: u32, count: u32) -> u32
    ensures { result ≡ retreated of pointer count }
{
    w32::sub(pointer, w32::mul(count, scale(of)))
}

/// How many elements lie between two pointers of this type: the signed quotient of their difference.
#[tactic(auto, unfolding(crate::specs::Constants::distance))]
pub fn distance(of: CType, pointer: u32, other: u32) -> Option<u32>
    ensures { result ≡ distance of pointer other }
{
    w32::div(w32::sub(pointer, other), scale(of))
}

// Whether it is built of numbers, sizes and operators alone.
#[tactic(auto, unfolding(crate::specs::Constants::is_constant))]
fn is_constant(x: &Expression) -> bool
    ensures { result ≡ is_constant (expression_of x.now) }
{
    match x {
        Expression::Number(_) => true,
        Expression::SizeofExpression(_, _) => true,
        Expression::SizeofType(_) => true,
        Expression::Unary(_, a) => is_constant(a),
        Expression::Cast(_, a) => is_constant(a),
        Expression::Arithmetic(_, a, b) => is_constant(a) && is_constant(b),
        Expression::Compare(_, a, b) => is_constant(a) && is_constant(b),
        Expression::AndAnd(a, b) => is_constant(a) && is_constant(b),
        Expression::OrOr(a, b) => is_constant(a) && is_constant(b),
        Expression::Advance(_, a, b) => is_constant(a) && is_constant(b),
        Expression::AdvanceBy(_, a, b) => is_constant(a) && is_constant(b),
        Expression::Retreat(_, a, b) => is_constant(a) && is_constant(b),
        Expression::Distance(_, a, b) => is_constant(a) && is_constant(b),
        Expression::Choice(_, c, a, b) => is_constant(c) && is_constant(a) && is_constant(b),
        _ => false,
    }
}

// The value; None where it traps, or where it isn't built of constants.
#[tactic(auto, unfolding(crate::specs::Constants::value_of))]
fn value(x: &Expression) -> Option<u32>
    ensures { result ≡ value_of (expression_of x.now) }
{
    match x {
        Expression::Number(value) => Some(*value),
        Expression::SizeofExpression(size, _) => Some(*size),
        Expression::SizeofType(size) => Some(*size),
        Expression::Unary(op, a) => Some(apply_unary(*op, value(a)?)),
        Expression::Cast(to, a) => Some(convert(*to, value(a)?)),
        Expression::Arithmetic(op, a, b) => apply(*op, value(a)?, value(b)?),
        Expression::Compare(rel, a, b) => Some(truth(rel.holds(value(a)?, value(b)?))),
        Expression::AndAnd(a, b) => {
            if value(a)? == 0 {
                Some(0)
            } else {
                Some(truth(value(b)? != 0))
            }
        }
        Expression::OrOr(a, b) => {
            if value(a)? == 0 {
                Some(truth(value(b)? != 0))
            } else {
                Some(1)
            }
        }
        Expression::Advance(t, a, b) => Some(advance(*t, value(a)?, value(b)?)),
        Expression::AdvanceBy(t, a, b) => {
            let count = value(a)?;
            Some(advance(*t, value(b)?, count))
        }
        Expression::Retreat(t, a, b) => Some(retreat(*t, value(a)?, value(b)?)),
        Expression::Distance(t, a, b) => distance(*t, value(a)?, value(b)?),
        Expression::Choice(_, c, a, b) => { if value(c)? == 0 { value(b) } else { value(a) } }
        _ => None,
    }
}

/// The value of a constant expression. None where it isn't built of numbers, sizes and operators alone, also in parts
/// that aren't evaluated, or where its value traps.
#[tactic(auto, unfolding(crate::specs::Constants::constant_of))]
pub fn constant(x: &Expression) -> Option<u32>
    ensures { result ≡ constant_of (expression_of x.now) }
{
    if is_constant(x) { value(x) } else { None }
}
