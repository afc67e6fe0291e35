// What operators make of values.

ghost use Rattle.std.specs.Prelude.{◌≡◌};
ghost use Rattle.c_meaning.specs.Parts.{combined};
ghost use Rattle.c_meaning.specs.Values.{logical, stepped, of_moment};

use c_types::constant::{advance, apply, distance, retreat, truth};
use c_types::{ArithmeticOperator, CType, Direction, Moment};
use gg_base::Rel;

/// An operator that evaluates both its operands, and then joins their values.
#[derive(Clone, Copy)]
pub(crate) enum Operator {
    Arithmetic(ArithmeticOperator),
    Compare(Rel),
    /// A pointer of this type plus a number.
    Advance(CType),
    /// A number plus a pointer of this type.
    AdvanceBy(CType),
    /// A pointer of this type minus a number.
    Retreat(CType),
    /// A pointer of this type minus a pointer.
    Distance(CType),
}

impl Operator {
    /// The value at two values. None where it traps.
    pub(crate) fn combine(self, left: u32, right: u32) -> Option<u32>
        ensures { result ≡ combined self left right }
    {
        match self {
            Operator::Arithmetic(op) => apply(op, left, right),
            Operator::Compare(rel) => Some(truth(rel.holds(left, right))),
            Operator::Advance(of) => Some(advance(of, left, right)),
            Operator::AdvanceBy(of) => Some(advance(of, right, left)),
            Operator::Retreat(of) => Some(retreat(of, left, right)),
            Operator::Distance(of) => distance(of, left, right),
        }
    }
}

/// 1 for a value that is true, which is any but 0, and 0 for 0.
pub(crate) fn logical(value: u32) -> u32
    ensures { result ≡ logical value }
{
    if value == 0 { 0 } else { 1 }
}

/// What a place of a type holds behind `++` or `--`, before it is converted.
pub(crate) fn stepped(by: Direction, of: CType, value: u32) -> u32
    ensures { result ≡ stepped by of value }
{
    match by {
        Direction::Up => advance(of, value, 1),
        Direction::Down => retreat(of, value, 1),
    }
}

/// The value of `++` or `--`: that before the step, or that after it.
pub(crate) fn of_moment(moment: Moment, before: u32, after: u32) -> u32
    ensures { result ≡ of_moment moment before after }
{
    match moment {
        Moment::Before => before,
        Moment::After => after,
    }
}
