// The table of operators, on operands that have their types. A fault stands at the operator.
ghost use Rattle.std.specs.Prelude.{◌≡◌};
ghost use Rattle.c_types.specs.Answers.{Gives};
ghost use Rattle.c_types.specs.Typed.{expression_of, place_of};
ghost use Rattle.c_typed_operators.specs.Rules.{arithmetic, plus, minus, order, are_comparable, equality, both};
ghost use Rattle.c_typed_operators.specs.Rules.{either, binary_of, fits};
ghost use Rattle.c_typed_operators.specs.Prefixes.{unary, negation, indirection, element, index_of, address_of};
ghost use Rattle.c_typed_operators.specs.Prefixes.{address, prefix_of, direction, step, cast_of, sizeof_of};
ghost use Rattle.c_typed_operators.specs.Prefixes.{sizeof_type_of};
ghost use Rattle.c_typed_operators.specs.Choices.{arms, choice_of, comma_of, condition_of};
ghost use Rattle.c_typed_operators.specs.Stores.{given};

use c_phrases::operator::{BinaryOperator, PrefixOperator, StepOperator};
use c_types::fault::bad_type;
use c_types::{
    ArithmeticOperator, CType, Direction, Expression, Integer, Moment, Place, TypeFault, TypeKind,
    UnaryOperator, Variable,
};
use gg_base::Rel;
use std::alloc::Global;

/// Whether a value may be given to a place of this type: an integer to an integer type, a pointer to its own type,
/// the null constant to a pointer.
#[tactic(auto, unfolding(crate::specs::Rules::fits))]
pub fn fits(to: CType, x: &Expression) -> bool
    ensures { result ≡ fits to (expression_of x.now) }
{
    match to {
        CType::Void => false,
        CType::Integer(_) => x.ctype().is_integer(),
        CType::Pointer(_, _) => to.is_same(x.ctype()) || x.is_null(),
    }
}

#[tactic(auto, unfolding(crate::specs::Rules::arithmetic))]
fn arithmetic(
    op: ArithmeticOperator,
    at: u32,
    x: Box<Expression>,
    y: Box<Expression>,
) -> Result<Expression, TypeFault>
    ensures { Gives (λ t. expression_of t) result (arithmetic op at (expression_of x.value) (expression_of y.value)) }
{
    if x.ctype().is_integer() && y.ctype().is_integer() {
        Ok(Expression::Arithmetic(op, x, y))
    } else {
        bad_type(at)
    }
}

#[tactic(auto, unfolding(crate::specs::Rules::plus))]
fn plus(at: u32, x: Box<Expression>, y: Box<Expression>) -> Result<Expression, TypeFault>
    ensures { Gives (λ t. expression_of t) result (plus at (expression_of x.value) (expression_of y.value)) }
{
    match x.ctype() {
        CType::Void => bad_type(at),
        CType::Integer(_) => match y.ctype() {
            CType::Void => bad_type(at),
            CType::Integer(_) => Ok(Expression::Arithmetic(ArithmeticOperator::Add, x, y)),
            CType::Pointer(to, stars) => Ok(Expression::AdvanceBy(CType::Pointer(to, stars), x, y)),
        },
        CType::Pointer(to, stars) => match y.ctype() {
            CType::Void => bad_type(at),
            CType::Integer(_) => Ok(Expression::Advance(CType::Pointer(to, stars), x, y)),
            CType::Pointer(_, _) => bad_type(at),
        },
    }
}

#[tactic(auto, unfolding(crate::specs::Rules::minus))]
fn minus(at: u32, x: Box<Expression>, y: Box<Expression>) -> Result<Expression, TypeFault>
    ensures { Gives (λ t. expression_of t) result (minus at (expression_of x.value) (expression_of y.value)) }
{
    match x.ctype() {
        CType::Void => bad_type(at),
        CType::Integer(_) => match y.ctype() {
            CType::Void => bad_type(at),
            CType::Integer(_) => Ok(Expression::Arithmetic(ArithmeticOperator::Subtract, x, y)),
            CType::Pointer(_, _) => bad_type(at),
        },
        CType::Pointer(to, stars) => match y.ctype() {
            CType::Void => bad_type(at),
            CType::Integer(_) => Ok(Expression::Retreat(CType::Pointer(to, stars), x, y)),
            CType::Pointer(other, others) => {
                if CType::Pointer(to, stars).is_same(CType::Pointer(other, others)) {
                    Ok(Expression::Distance(CType::Pointer(to, stars), x, y))
                } else {
                    bad_type(at)
                }
            }
        },
    }
}

#[tactic(auto, unfolding(crate::specs::Rules::order))]
fn order(
    signed: Rel,
    unsigned: Rel,
    at: u32,
    x: Box<Expression>,
    y: Box<Expression>,
) -> Result<Expression, TypeFault>
    ensures { Gives (λ t. expression_of t) result (order signed unsigned at (expression_of x.value) (expression_of y.value)) }
{
    match x.ctype() {
        CType::Void => bad_type(at),
        CType::Integer(_) => match y.ctype() {
            CType::Void => bad_type(at),
            CType::Integer(_) => Ok(Expression::Compare(signed, x, y)),
            CType::Pointer(_, _) => bad_type(at),
        },
        CType::Pointer(to, stars) => match y.ctype() {
            CType::Void => bad_type(at),
            CType::Integer(_) => bad_type(at),
            CType::Pointer(other, others) => {
                if CType::Pointer(to, stars).is_same(CType::Pointer(other, others)) {
                    Ok(Expression::Compare(unsigned, x, y))
                } else {
                    bad_type(at)
                }
            }
        },
    }
}

#[tactic(auto, unfolding(crate::specs::Rules::are_comparable))]
fn are_comparable(x: &Expression, y: &Expression) -> bool
    ensures { result ≡ are_comparable (expression_of x.now) (expression_of y.now) }
{
    match x.ctype() {
        CType::Void => false,
        CType::Integer(_) => match y.ctype() {
            CType::Void => false,
            CType::Integer(_) => true,
            CType::Pointer(_, _) => x.is_null(),
        },
        CType::Pointer(to, stars) => CType::Pointer(to, stars).is_same(y.ctype()) || y.is_null(),
    }
}

#[tactic(auto, unfolding(crate::specs::Rules::equality))]
fn equality(
    rel: Rel,
    at: u32,
    x: Box<Expression>,
    y: Box<Expression>,
) -> Result<Expression, TypeFault>
    ensures { Gives (λ t. expression_of t) result (equality rel at (expression_of x.value) (expression_of y.value)) }
{
    if are_comparable(&x, &y) {
        Ok(Expression::Compare(rel, x, y))
    } else {
        bad_type(at)
    }
}

#[tactic(auto, unfolding(crate::specs::Rules::both))]
fn both(at: u32, x: Box<Expression>, y: Box<Expression>) -> Result<Expression, TypeFault>
    ensures { Gives (λ t. expression_of t) result (both at (expression_of x.value) (expression_of y.value)) }
{
    if x.ctype().is_scalar() && y.ctype().is_scalar() {
        Ok(Expression::AndAnd(x, y))
    } else {
        bad_type(at)
    }
}

#[tactic(auto, unfolding(crate::specs::Rules::either))]
fn either(at: u32, x: Box<Expression>, y: Box<Expression>) -> Result<Expression, TypeFault>
    ensures { Gives (λ t. expression_of t) result (either at (expression_of x.value) (expression_of y.value)) }
{
    if x.ctype().is_scalar() && y.ctype().is_scalar() {
        Ok(Expression::OrOr(x, y))
    } else {
        bad_type(at)
    }
}

/// A binary operator between two operands.
#[tactic(auto, unfolding(crate::specs::Rules::binary_of))]
pub fn binary(
    op: BinaryOperator,
    at: u32,
    x: Box<Expression>,
    y: Box<Expression>,
) -> Result<Expression, TypeFault>
    ensures { Gives (λ t. expression_of t) result (binary_of op at (expression_of x.value) (expression_of y.value)) }
{
    match op {
        BinaryOperator::OrOr => either(at, x, y),
        BinaryOperator::AndAnd => both(at, x, y),
        BinaryOperator::Or => arithmetic(ArithmeticOperator::Or, at, x, y),
        BinaryOperator::Xor => arithmetic(ArithmeticOperator::Xor, at, x, y),
        BinaryOperator::And => arithmetic(ArithmeticOperator::And, at, x, y),
        BinaryOperator::Equal => equality(Rel::Eq, at, x, y),
        BinaryOperator::NotEqual => equality(Rel::Ne, at, x, y),
        BinaryOperator::Less => order(Rel::Lt, Rel::Ltu, at, x, y),
        BinaryOperator::LessEqual => order(Rel::Le, Rel::Leu, at, x, y),
        BinaryOperator::Greater => order(Rel::Gt, Rel::Gtu, at, x, y),
        BinaryOperator::GreaterEqual => order(Rel::Ge, Rel::Geu, at, x, y),
        BinaryOperator::ShiftLeft => arithmetic(ArithmeticOperator::ShiftLeft, at, x, y),
        BinaryOperator::ShiftRight => arithmetic(ArithmeticOperator::ShiftRight, at, x, y),
        BinaryOperator::Add => plus(at, x, y),
        BinaryOperator::Subtract => minus(at, x, y),
        BinaryOperator::Multiply => arithmetic(ArithmeticOperator::Multiply, at, x, y),
        BinaryOperator::Divide => arithmetic(ArithmeticOperator::Divide, at, x, y),
        BinaryOperator::Remainder => arithmetic(ArithmeticOperator::Remainder, at, x, y),
    }
}

#[tactic(auto, unfolding(crate::specs::Prefixes::unary))]
fn unary(op: UnaryOperator, at: u32, x: Box<Expression>) -> Result<Expression, TypeFault>
    ensures { Gives (λ t. expression_of t) result (unary op at (expression_of x.value)) }
{
    if x.ctype().is_integer() {
        Ok(Expression::Unary(op, x))
    } else {
        bad_type(at)
    }
}

#[tactic(auto, unfolding(crate::specs::Prefixes::negation))]
fn negation(at: u32, x: Box<Expression>) -> Result<Expression, TypeFault>
    ensures { Gives (λ t. expression_of t) result (negation at (expression_of x.value)) }
{
    if x.ctype().is_scalar() {
        Ok(Expression::Unary(UnaryOperator::Not, x))
    } else {
        bad_type(at)
    }
}

#[tactic(auto, unfolding(crate::specs::Prefixes::indirection))]
fn indirection(at: u32, x: Box<Expression>) -> Result<Expression, TypeFault>
    ensures { Gives (λ t. expression_of t) result (indirection at (expression_of x.value)) }
{
    match x.ctype() {
        CType::Void => bad_type(at),
        CType::Integer(_) => bad_type(at),
        CType::Pointer(to, stars) => Ok(Expression::Read(Place::Indirection(
            CType::target(to, stars),
            x,
        ))),
    }
}

#[tactic(auto, unfolding(crate::specs::Prefixes::element))]
fn element(at: u32, sum: Box<Expression>) -> Result<Expression, TypeFault>
    ensures { Gives (λ t. expression_of t) result (element at (expression_of sum.value)) }
{
    match sum.ctype() {
        CType::Void => bad_type(at),
        CType::Integer(_) => bad_type(at),
        CType::Pointer(to, stars) => Ok(Expression::Read(Place::Index(
            CType::target(to, stars),
            sum,
        ))),
    }
}

/// `a[i]`, with the pointer on either side.
#[tactic(auto, unfolding(crate::specs::Prefixes::index_of))]
pub fn index(
    alloc: Global,
    at: u32,
    x: Box<Expression>,
    y: Box<Expression>,
) -> Result<Expression, TypeFault>
    ensures { Gives (λ t. expression_of t) result (index_of at (expression_of x.value) (expression_of y.value)) }
{
    let sum = plus(at, x, y)?;
    element(at, Box::new(alloc, sum)?)
}

#[tactic(auto, unfolding(crate::specs::Prefixes::address_of, c_types::specs::Types::pointer_to))]
fn address_of(at: u32, place: Place) -> Result<Expression, TypeFault>
    ensures { Gives (λ t. expression_of t) result (address_of at (place_of place)) }
{
    if let Place::Variable(_, Variable::Automatic(_) | Variable::Parameter(_)) = place {
        return bad_type(at);
    }
    match place.ctype() {
        CType::Void => bad_type(at),
        of => match of.pointer() {
            None => Err(TypeFault::NoMemory),
            Some(t) => Ok(Expression::Address(t, place)),
        },
    }
}

#[tactic(auto, unfolding(crate::specs::Prefixes::address))]
fn address(at: u32, x: Expression) -> Result<Expression, TypeFault>
    ensures { Gives (λ t. expression_of t) result (address at (expression_of x)) }
{
    match x {
        Expression::Read(place) => address_of(at, place),
        _ => bad_type(at),
    }
}

/// An operator in front of its operand.
#[tactic(auto, unfolding(crate::specs::Prefixes::prefix_of))]
pub fn prefix(op: PrefixOperator, at: u32, x: Box<Expression>) -> Result<Expression, TypeFault>
    ensures { Gives (λ t. expression_of t) result (prefix_of op at (expression_of x.value)) }
{
    match op {
        PrefixOperator::Plus => unary(UnaryOperator::Plus, at, x),
        PrefixOperator::Minus => unary(UnaryOperator::Minus, at, x),
        PrefixOperator::Complement => unary(UnaryOperator::Complement, at, x),
        PrefixOperator::Not => negation(at, x),
        PrefixOperator::Indirection => indirection(at, x),
        PrefixOperator::Address => address(at, Box::into_inner(x)),
    }
}

#[tactic(auto, unfolding(crate::specs::Prefixes::direction))]
fn direction(op: StepOperator) -> Direction
    ensures { result ≡ direction op }
{
    match op {
        StepOperator::Increment => Direction::Up,
        StepOperator::Decrement => Direction::Down,
    }
}

/// `++` or `--` at a place.
#[tactic(auto, unfolding(crate::specs::Prefixes::step))]
pub fn step(
    moment: Moment,
    op: StepOperator,
    at: u32,
    x: Expression,
) -> Result<Expression, TypeFault>
    ensures { Gives (λ t. expression_of t) result (step moment op at (expression_of x)) }
{
    match x {
        Expression::Read(place) => {
            if place.ctype().is_scalar() {
                Ok(Expression::Step(moment, direction(op), place))
            } else {
                bad_type(at)
            }
        }
        _ => bad_type(at),
    }
}

/// A cast to this type, from an integer or a pointer.
#[tactic(auto, unfolding(crate::specs::Prefixes::cast_of))]
pub fn cast(at: u32, to: CType, x: Box<Expression>) -> Result<Expression, TypeFault>
    ensures { Gives (λ t. expression_of t) result (cast_of at to (expression_of x.value)) }
{
    if to.is_scalar() && x.ctype().is_scalar() {
        Ok(Expression::Cast(to, x))
    } else {
        bad_type(at)
    }
}

/// `sizeof` of an expression.
#[tactic(auto, unfolding(crate::specs::Prefixes::sizeof_of))]
pub fn sizeof_expression(at: u32, x: Box<Expression>) -> Result<Expression, TypeFault>
    ensures { Gives (λ t. expression_of t) result (sizeof_of at (expression_of x.value)) }
{
    if x.ctype().is_scalar() {
        let size = x.operand_size();
        Ok(Expression::SizeofExpression(size, x))
    } else {
        bad_type(at)
    }
}

/// `sizeof` of a type.
#[tactic(auto, unfolding(crate::specs::Prefixes::sizeof_type_of))]
pub fn sizeof_type(at: u32, of: CType) -> Result<Expression, TypeFault>
    ensures { Gives (λ t. expression_of t) result (sizeof_type_of at of) }
{
    if of.is_scalar() {
        Ok(Expression::SizeofType(of.size()))
    } else {
        bad_type(at)
    }
}

#[tactic(auto, unfolding(crate::specs::Choices::arms))]
fn arms(x: &Expression, y: &Expression) -> Option<CType>
    ensures { result ≡ arms (expression_of x.now) (expression_of y.now) }
{
    match x.ctype() {
        CType::Void => match y.ctype() {
            CType::Void => Some(CType::Void),
            CType::Integer(_) => None,
            CType::Pointer(_, _) => None,
        },
        CType::Integer(_) => match y.ctype() {
            CType::Void => None,
            CType::Integer(_) => Some(CType::Integer(Integer::Int)),
            CType::Pointer(to, stars) => {
                if x.is_null() {
                    Some(CType::Pointer(to, stars))
                } else {
                    None
                }
            }
        },
        CType::Pointer(to, stars) => match y.ctype() {
            CType::Void => None,
            CType::Integer(_) => {
                if y.is_null() {
                    Some(CType::Pointer(to, stars))
                } else {
                    None
                }
            }
            CType::Pointer(other, others) => {
                if CType::Pointer(to, stars).is_same(CType::Pointer(other, others)) {
                    Some(CType::Pointer(to, stars))
                } else {
                    None
                }
            }
        },
    }
}

/// `c ? x : y`
#[tactic(auto, unfolding(crate::specs::Choices::choice_of))]
pub fn choice(
    at: u32,
    c: Box<Expression>,
    x: Box<Expression>,
    y: Box<Expression>,
) -> Result<Expression, TypeFault>
    ensures { Gives (λ t. expression_of t) result (choice_of at (expression_of c.value) (expression_of x.value) (expression_of y.value)) }
{
    if !c.ctype().is_scalar() {
        return bad_type(at);
    }
    match arms(&x, &y) {
        None => bad_type(at),
        Some(t) => Ok(Expression::Choice(t, c, x, y)),
    }
}

/// `x, y`
#[tactic(auto, unfolding(crate::specs::Choices::comma_of))]
pub fn comma(x: Box<Expression>, y: Box<Expression>) -> Expression
    ensures { expression_of result ≡ comma_of (expression_of x.value) (expression_of y.value) }
{
    let t = y.ctype();
    Expression::Comma(t, x, y)
}

/// A value that is given to a result or a local of this type; the place is its first token's.
#[tactic(auto, unfolding(crate::specs::Stores::given))]
pub fn give(to: CType, place: u32, x: Box<Expression>) -> Result<Expression, TypeFault>
    ensures { Gives (λ t. expression_of t) result (given to place (expression_of x.value)) }
{
    if fits(to, &x) {
        Ok(Expression::Convert(to, x))
    } else {
        bad_type(place)
    }
}

/// A condition, an integer or a pointer; the place is its first token's.
#[tactic(auto, unfolding(crate::specs::Choices::condition_of))]
pub fn condition(place: u32, x: Expression) -> Result<Expression, TypeFault>
    ensures { Gives (λ t. expression_of t) result (condition_of place (expression_of x)) }
{
    if x.ctype().is_scalar() {
        Ok(x)
    } else {
        bad_type(place)
    }
}
