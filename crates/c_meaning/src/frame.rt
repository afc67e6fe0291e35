// The work that a run still has to do. A phrase that waits is named by the box that it is in.

use crate::flow::Flow;
use crate::operator::Operator;
use crate::store::{Activation, Spot};
use c_program::{Action, Declaration};
use c_types::{ArithmeticOperator, CType, Callee, Direction, Expression, Moment, UnaryOperator};
use gg_base::Finish;

/// A loop: its condition, what is done behind each turn, and what a turn does.
#[derive(Clone, Copy)]
pub(crate) struct Loop<'a> {
    pub(crate) condition: Option<&'a Expression>,
    pub(crate) step: Option<&'a Expression>,
    pub(crate) body: &'a Box<Action>,
}

/// What is done with a place once it is found.
#[derive(Clone, Copy)]
pub(crate) enum Use<'a> {
    Read,
    Address,
    Step(Moment, Direction),
    Assign(&'a Box<Expression>),
    Change(ArithmeticOperator, &'a Box<Expression>),
    Advance(&'a Box<Expression>),
    Retreat(&'a Box<Expression>),
}

/// Work that waits for a value.
#[derive(Clone, Copy)]
pub(crate) enum ValueFrame<'a> {
    Unary(UnaryOperator),
    Convert(CType),
    /// The left operand comes, and the right one is still to be evaluated.
    Right(Operator, &'a Box<Expression>),
    /// The right operand comes, and the left one is known.
    Last(Operator, u32),
    AndRight(&'a Box<Expression>),
    OrRight(&'a Box<Expression>),
    Truth,
    Choose(&'a Box<Expression>, &'a Box<Expression>),
    Comma(&'a Box<Expression>),
    /// The address of a place of a type comes.
    Found(CType, Use<'a>),
    /// The value comes that is stored into a place of a type.
    Assign(CType, Spot),
    /// The right operand of a compound assignment comes; what the place held is known.
    Change(CType, Spot, Operator, u32),
    Forget,
    /// The first value of an automatic local comes, and declarations follow.
    Begin(u32, &'a [Declaration]),
    /// The value comes that is stored at an offset of the block as a type, and declarations follow.
    Store(CType, u32, &'a [Declaration]),
    If(&'a Box<Action>),
    IfElse(&'a Box<Action>, &'a Box<Action>),
    Return,
    /// The condition of a loop comes.
    Test(Loop<'a>),
    /// What comes before the next look at a loop's condition is done; its value is dropped.
    Look(Loop<'a>),
}

/// Work that waits until a statement is left.
#[derive(Clone, Copy)]
pub(crate) enum FlowFrame<'a> {
    /// The statements behind it.
    Statements(&'a [Action]),
    /// A turn of a loop.
    Turn(Loop<'a>),
}

/// Work that waits for what is done now.
#[derive(Drop)]
pub(crate) enum Frame<'a> {
    ForValue(ValueFrame<'a>),
    /// An argument comes: whose it is, those before it, its parameter's type and the further ones, and the arguments
    /// behind it.
    ForArgument(Callee, Vec<u32>, &'a [CType], &'a [Expression]),
    ForFlow(FlowFrame<'a>),
    /// A call with a block of so many bytes is left, behind which the caller goes on as one of so many active calls.
    ForCall(Activation, u32, u32),
}

/// What is done now.
#[derive(Clone, Copy)]
pub(crate) enum Control<'a> {
    Evaluate(&'a Expression),
    Perform(&'a Box<Action>),
    /// Statements one after another.
    Block(&'a Vec<Action>),
    /// Declarations one after another.
    Declare(&'a [Declaration]),
    /// An expression has this value.
    Value(u32),
    /// A statement is left so.
    Left(Flow),
    Stop(Finish),
}
