// Assignments, on a left side and a value that have their types. A fault stands at the operator.
ghost use Rattle.std.specs.Prelude.{◌≡◌};
ghost use Rattle.c_types.specs.Answers.{Gives};
ghost use Rattle.c_types.specs.Typed.{expression_of, place_of};
ghost use Rattle.c_typed_operators.specs.Stores.{store, arithmetic_store, plus_store, minus_store, store_by};
ghost use Rattle.c_typed_operators.specs.Stores.{assign_of};

use crate::rules::fits;
use c_phrases::operator::AssignOperator;
use c_types::fault::bad_type;
use c_types::{ArithmeticOperator, CType, Expression, Place, TypeFault};

#[tactic(auto, unfolding(crate::specs::Stores::store))]
fn store(at: u32, place: Place, y: Box<Expression>) -> Result<Expression, TypeFault>
    ensures { Gives (λ t. expression_of t) result (store at (place_of place) (expression_of y.value)) }
{
    if fits(place.ctype(), &y) {
        Ok(Expression::Assign(place, y))
    } else {
        bad_type(at)
    }
}

#[tactic(auto, unfolding(crate::specs::Stores::arithmetic_store))]
fn arithmetic_store(
    op: ArithmeticOperator,
    at: u32,
    place: Place,
    y: Box<Expression>,
) -> Result<Expression, TypeFault>
    ensures { Gives (λ t. expression_of t) result (arithmetic_store op at (place_of place) (expression_of y.value)) }
{
    if place.ctype().is_integer() && y.ctype().is_integer() {
        Ok(Expression::ArithmeticAssign(op, place, y))
    } else {
        bad_type(at)
    }
}

#[tactic(auto, unfolding(crate::specs::Stores::plus_store))]
fn plus_store(at: u32, place: Place, y: Box<Expression>) -> Result<Expression, TypeFault>
    ensures { Gives (λ t. expression_of t) result (plus_store at (place_of place) (expression_of y.value)) }
{
    match place.ctype() {
        CType::Void => bad_type(at),
        CType::Integer(_) => match y.ctype() {
            CType::Void => bad_type(at),
            CType::Integer(_) => Ok(Expression::ArithmeticAssign(
                ArithmeticOperator::Add,
                place,
                y,
            )),
            CType::Pointer(_, _) => bad_type(at),
        },
        CType::Pointer(_, _) => match y.ctype() {
            CType::Void => bad_type(at),
            CType::Integer(_) => Ok(Expression::AdvanceAssign(place, y)),
            CType::Pointer(_, _) => bad_type(at),
        },
    }
}

#[tactic(auto, unfolding(crate::specs::Stores::minus_store))]
fn minus_store(at: u32, place: Place, y: Box<Expression>) -> Result<Expression, TypeFault>
    ensures { Gives (λ t. expression_of t) result (minus_store at (place_of place) (expression_of y.value)) }
{
    match place.ctype() {
        CType::Void => bad_type(at),
        CType::Integer(_) => match y.ctype() {
            CType::Void => bad_type(at),
            CType::Integer(_) => Ok(Expression::ArithmeticAssign(
                ArithmeticOperator::Subtract,
                place,
                y,
            )),
            CType::Pointer(_, _) => bad_type(at),
        },
        CType::Pointer(_, _) => match y.ctype() {
            CType::Void => bad_type(at),
            CType::Integer(_) => Ok(Expression::RetreatAssign(place, y)),
            CType::Pointer(_, _) => bad_type(at),
        },
    }
}

#[tactic(auto, unfolding(crate::specs::Stores::store_by))]
fn store_by(
    op: AssignOperator,
    at: u32,
    place: Place,
    y: Box<Expression>,
) -> Result<Expression, TypeFault>
    ensures { Gives (λ t. expression_of t) result (store_by op at (place_of place) (expression_of y.value)) }
{
    match op {
        AssignOperator::Assign => store(at, place, y),
        AssignOperator::Add => plus_store(at, place, y),
        AssignOperator::Subtract => minus_store(at, place, y),
        AssignOperator::Multiply => arithmetic_store(ArithmeticOperator::Multiply, at, place, y),
        AssignOperator::Divide => arithmetic_store(ArithmeticOperator::Divide, at, place, y),
        AssignOperator::Remainder => arithmetic_store(ArithmeticOperator::Remainder, at, place, y),
        AssignOperator::And => arithmetic_store(ArithmeticOperator::And, at, place, y),
        AssignOperator::Xor => arithmetic_store(ArithmeticOperator::Xor, at, place, y),
        AssignOperator::Or => arithmetic_store(ArithmeticOperator::Or, at, place, y),
        AssignOperator::ShiftLeft => arithmetic_store(ArithmeticOperator::ShiftLeft, at, place, y),
        AssignOperator::ShiftRight => arithmetic_store(
            ArithmeticOperator::ShiftRight,
            at,
            place,
            y,
        ),
    }
}

/// `=` or a compound assignment, whose left side has to be a place.
#[tactic(auto, unfolding(crate::specs::Stores::assign_of))]
pub fn assign(
    op: AssignOperator,
    at: u32,
    x: Box<Expression>,
    y: Box<Expression>,
) -> Result<Expression, TypeFault>
    ensures { Gives (λ t. expression_of t) result (assign_of op at (expression_of x.value) (expression_of y.value)) }
{
    match Box::into_inner(x) {
        Expression::Read(place) => store_by(op, at, place, y),
        _ => bad_type(at),
    }
}
