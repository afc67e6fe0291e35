// Phrases with their types. Names are numbers; each reading, writing, scaling and conversion is a node or has its type beside it.
ghost use Rattle.std.specs.Prelude.{◌≡◌};
ghost use Rattle.c_types.specs.Typed.{expression_of, place_type, type_of, is_null, operand_size};

use crate::types::{CType, Integer, Types};
use gg_base::Rel;

/// What a variable's name stands for.
#[derive(Clone, Copy, Debug, PartialEq, Eq)]
pub enum Variable {
    /// An automatic local of the function that is no memory local, from 0 in order of declaration.
    Automatic(u32),
    /// A parameter of the function, from 0.
    Parameter(u32),
    /// The object of a variable at file level, from 0 in order of the layout.
    Global(u32),
    /// The object of a static local.
    Static(u32),
    /// A memory local of the function, by its offset in the block of a call.
    InBlock(u32),
}

/// The most bytes of a function's memory locals, and those of the stack on which they lie.
pub const BLOCK_LIMIT: u32 = 262_144;

/// What a call calls.
#[derive(Clone, Copy, Debug, PartialEq, Eq)]
pub enum Callee {
    /// A function of the program, from 0 in order of definition.
    Defined(u32),
    Putchar,
    Getchar,
}

/// An operator on one operand.
#[derive(Clone, Copy, Debug, PartialEq, Eq)]
pub enum UnaryOperator {
    Plus,
    Minus,
    Complement,
    Not,
}

/// An operator on two whole numbers, with a whole number as value.
#[derive(Clone, Copy, Debug, PartialEq, Eq)]
pub enum ArithmeticOperator {
    Add,
    Subtract,
    Multiply,
    Divide,
    Remainder,
    And,
    Xor,
    Or,
    ShiftLeft,
    ShiftRight,
}

/// Whether a step is `++` or `--`.
#[derive(Clone, Copy, Debug, PartialEq, Eq)]
pub enum Direction {
    Up,
    Down,
}

/// Which value `++` and `--` have: that before the step, or that after it.
#[derive(Clone, Copy, Debug, PartialEq, Eq)]
pub enum Moment {
    Before,
    After,
}

/// A place in which a value is kept, and the value's type.
#[derive(Drop)]
#[cycle(expression)]
pub enum Place {
    Variable(CType, Variable),
    /// `*p`
    Indirection(CType, Box<Expression>),
    /// `a[i]`, by the sum `a + i`.
    Index(CType, Box<Expression>),
}

/// A typed expression, one node for each of its source but parentheses.
#[derive(Drop)]
#[cycle(expression)]
pub enum Expression {
    Number(u32),
    /// The address of the first byte of a literal: its object, and its bytes with the closing zero.
    Literal(u32, u32),
    /// The address of the first element of an array: the address's type, the variable and its bytes.
    Array(CType, Variable, u32),
    /// The value that a place has.
    Read(Place),
    /// The size of an expression, which isn't evaluated.
    SizeofExpression(u32, Box<Expression>),
    SizeofType(u32),
    /// The address of a place, and the address's type.
    Address(CType, Place),
    /// A call: its result's type, and its arguments, each of which is converted to the parameter's type of the same place.
    Call(CType, Callee, Types, Vec<Expression>),
    /// `++` or `--`, by one or by the size of what is pointed to, at a place.
    Step(Moment, Direction, Place),
    Unary(UnaryOperator, Box<Expression>),
    Cast(CType, Box<Expression>),
    /// What a local or a result of the type becomes by this value. It is no node of the source.
    Convert(CType, Box<Expression>),
    Arithmetic(ArithmeticOperator, Box<Expression>, Box<Expression>),
    /// 1 or 0; two pointers are compared without sign.
    Compare(Rel, Box<Expression>, Box<Expression>),
    AndAnd(Box<Expression>, Box<Expression>),
    OrOr(Box<Expression>, Box<Expression>),
    /// A pointer plus a number, which is scaled; the pointer's type.
    Advance(CType, Box<Expression>, Box<Expression>),
    /// A number, which is scaled, plus a pointer; the pointer's type.
    AdvanceBy(CType, Box<Expression>, Box<Expression>),
    /// A pointer minus a number, which is scaled; the pointer's type.
    Retreat(CType, Box<Expression>, Box<Expression>),
    /// How many elements lie between two pointers of this type.
    Distance(CType, Box<Expression>, Box<Expression>),
    Choice(CType, Box<Expression>, Box<Expression>, Box<Expression>),
    Assign(Place, Box<Expression>),
    /// A compound assignment to an integer's place.
    ArithmeticAssign(ArithmeticOperator, Place, Box<Expression>),
    /// `+=` on a pointer, by a scaled number.
    AdvanceAssign(Place, Box<Expression>),
    /// `-=` on a pointer, by a scaled number.
    RetreatAssign(Place, Box<Expression>),
    Comma(CType, Box<Expression>, Box<Expression>),
}

impl Place {
    /// The type of the value that is kept there.
    #[tactic(auto, unfolding(crate::specs::Typed::place_type))]
    pub fn ctype(&self) -> CType
        ensures { result ≡ place_type (place_of self.now) }
    {
        match self {
            Place::Variable(t, _) => *t,
            Place::Indirection(t, _) => *t,
            Place::Index(t, _) => *t,
        }
    }
}

ghost use Rattle.c_types.specs.Typed.{place_of};

impl Expression {
    /// The type of its value.
    #[tactic(auto, unfolding(crate::specs::Typed::type_of))]
    pub fn ctype(&self) -> CType
        ensures { result ≡ type_of (expression_of self.now) }
    {
        match self {
            Expression::Number(_) => CType::Integer(Integer::Int),
            Expression::Literal(_, _) => CType::Pointer(Integer::Char, 0),
            Expression::Array(t, _, _) => *t,
            Expression::Read(p) => p.ctype(),
            Expression::SizeofExpression(_, _) => CType::Integer(Integer::Int),
            Expression::SizeofType(_) => CType::Integer(Integer::Int),
            Expression::Address(t, _) => *t,
            Expression::Call(t, _, _, _) => *t,
            Expression::Step(_, _, p) => p.ctype(),
            Expression::Unary(_, _) => CType::Integer(Integer::Int),
            Expression::Cast(t, _) => *t,
            Expression::Convert(t, _) => *t,
            Expression::Arithmetic(_, _, _) => CType::Integer(Integer::Int),
            Expression::Compare(_, _, _) => CType::Integer(Integer::Int),
            Expression::AndAnd(_, _) => CType::Integer(Integer::Int),
            Expression::OrOr(_, _) => CType::Integer(Integer::Int),
            Expression::Advance(t, _, _) => *t,
            Expression::AdvanceBy(t, _, _) => *t,
            Expression::Retreat(t, _, _) => *t,
            Expression::Distance(_, _, _) => CType::Integer(Integer::Int),
            Expression::Choice(t, _, _, _) => *t,
            Expression::Assign(p, _) => p.ctype(),
            Expression::ArithmeticAssign(_, p, _) => p.ctype(),
            Expression::AdvanceAssign(p, _) => p.ctype(),
            Expression::RetreatAssign(p, _) => p.ctype(),
            Expression::Comma(t, _, _) => *t,
        }
    }

    /// Whether it is the null constant, the number 0 as it is written.
    #[tactic(auto, unfolding(crate::specs::Typed::is_null))]
    pub fn is_null(&self) -> bool
        ensures { result ≡ is_null (expression_of self.now) }
    {
        match self {
            Expression::Number(value) => *value == 0,
            _ => false,
        }
    }

    /// What `sizeof` makes of it: the bytes of an array or a literal, else those of its type.
    #[tactic(auto, unfolding(crate::specs::Typed::operand_size))]
    pub fn operand_size(&self) -> u32
        ensures { result ≡ operand_size (expression_of self.now) }
    {
        match self {
            Expression::Array(_, _, size) => *size,
            Expression::Literal(_, size) => *size,
            _ => self.ctype().size(),
        }
    }
}
