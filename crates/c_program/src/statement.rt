// Typed statements.
use c_types::{CType, Expression};

/// What passing a declarator does.
#[derive(Drop)]
pub enum Declaration {
    /// Nothing: a static local, whose object, by its number, keeps its value.
    Keep(u32),
    /// An automatic local, by its number, becomes 0.
    Clear(u32),
    /// An automatic local is 0, and then becomes a value, which is converted to its type.
    Begin(u32, Expression),
    /// What the block holds at an offset as a type becomes a value: a memory local, or an element of an automatic array.
    Store(CType, u32, Expression),
    /// So many elements of a type, from an offset of the block on, become 0.
    Zeros(CType, u32, u32),
}

/// A typed statement, or one declaration of a block.
#[derive(Drop)]
#[cycle(action)]
pub enum Action {
    Declare(Vec<Declaration>),
    /// Also an empty statement, as a block of none.
    Block(Vec<Action>),
    Evaluate(Expression),
    Break,
    Continue,
    /// The value, if there is one, is converted to the type of the function's result.
    Return(Option<Expression>),
    If(Expression, Box<Action>),
    IfElse(Expression, Box<Action>, Box<Action>),
    While(Expression, Box<Action>),
    Do(Box<Action>, Expression),
    /// What is done first, the condition, what is done behind each turn, and the body.
    For(Option<Expression>, Option<Expression>, Option<Expression>, Box<Action>),
}
