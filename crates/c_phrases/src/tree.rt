// The phrases, one variant for each alternative of the grammar, with their parts in order.
// An offset is that of a token's first byte. Those of `) ] { } , ; :` are not kept.

use crate::operator::{
    AssignOperator, BinaryOperator, PrefixOperator, Spec, StepOperator, Storage,
};
use gg_base::{Bytes, ListOf, Name};

/// The offsets of the stars of a pointer type, in order.
pub type Stars = ListOf<u32>;

/// `spec stars`
#[derive(Drop)]
pub struct TypeName {
    pub spec: Spec,
    pub stars: Stars,
}

/// An expression. Binary operators group as their levels and the left say: `Binary` trees, never lists.
#[derive(Drop)]
pub enum Expr {
    Name {
        name: Name,
        at: u32,
    },
    Number {
        value: u32,
        at: u32,
    },
    Str {
        bytes: Bytes,
        at: u32,
    },
    Paren {
        open: u32,
        inner: Box<Expr>,
    },
    Call {
        name: Name,
        at: u32,
        open: u32,
        arguments: Vec<Expr>,
    },
    Index {
        base: Box<Expr>,
        open: u32,
        index: Box<Expr>,
    },
    StepAfter {
        operand: Box<Expr>,
        operator: StepOperator,
        at: u32,
    },
    StepBefore {
        operator: StepOperator,
        at: u32,
        operand: Box<Expr>,
    },
    Prefix {
        operator: PrefixOperator,
        at: u32,
        operand: Box<Expr>,
    },
    SizeofExpr {
        at: u32,
        operand: Box<Expr>,
    },
    SizeofType {
        at: u32,
        open: u32,
        of: TypeName,
    },
    Cast {
        open: u32,
        to: TypeName,
        operand: Box<Expr>,
    },
    Binary {
        left: Box<Expr>,
        operator: BinaryOperator,
        at: u32,
        right: Box<Expr>,
    },
    Choice {
        condition: Box<Expr>,
        at: u32,
        first: Box<Expr>,
        second: Box<Expr>,
    },
    Assign {
        place: Box<Expr>,
        operator: AssignOperator,
        at: u32,
        value: Box<Expr>,
    },
    Comma {
        left: Box<Expr>,
        right: Box<Expr>,
    },
}

/// `"[" [cond] "]"`
#[derive(Drop)]
pub struct Length {
    pub open: u32,
    pub value: Option<Expr>,
}

/// `init`, behind its `=`
#[derive(Drop)]
pub enum Initialiser {
    Value(Expr),
    List {
        items: Vec<Expr>,
        trailing_comma: bool,
    },
}

/// `"=" init`
#[derive(Drop)]
pub struct Initialised {
    pub at: u32,
    pub with: Initialiser,
}

/// `decl`
#[derive(Drop)]
pub struct Declarator {
    pub stars: Stars,
    pub name: Name,
    pub at: u32,
    pub length: Option<Length>,
    pub initialiser: Option<Initialised>,
}

/// `local`: at least one declarator.
#[derive(Drop)]
pub struct Local {
    pub storage: Storage,
    pub spec: Spec,
    pub declarators: Vec<Declarator>,
}

/// `local` or `statement` in a block.
#[derive(Drop)]
#[cycle(statement)]
pub enum Item {
    Local(Local),
    Statement(Statement),
}

/// A statement. An `else` belongs to the nearest `if`.
#[derive(Drop)]
#[cycle(statement)]
pub enum Statement {
    Block(Vec<Item>),
    Empty,
    Expr(Expr),
    Break {
        at: u32,
    },
    Continue {
        at: u32,
    },
    Return {
        at: u32,
        value: Option<Expr>,
    },
    If {
        at: u32,
        open: u32,
        condition: Expr,
        then: Box<Statement>,
    },
    IfElse {
        at: u32,
        open: u32,
        condition: Expr,
        then: Box<Statement>,
        else_at: u32,
        otherwise: Box<Statement>,
    },
    While {
        at: u32,
        open: u32,
        condition: Expr,
        body: Box<Statement>,
    },
    Do {
        at: u32,
        body: Box<Statement>,
        while_at: u32,
        open: u32,
        condition: Expr,
    },
    For {
        at: u32,
        open: u32,
        start: Option<Expr>,
        condition: Option<Expr>,
        step: Option<Expr>,
        body: Box<Statement>,
    },
}

/// A name and its offset.
#[derive(Drop)]
pub struct Named {
    pub name: Name,
    pub at: u32,
}

/// `param`
#[derive(Drop)]
pub struct Param {
    pub spec: Spec,
    pub stars: Stars,
    pub name: Option<Named>,
    pub length: Option<Length>,
}

/// `params`: none, the word `void` alone, or at least one parameter.
#[derive(Drop)]
pub enum Params {
    None,
    Void { at: u32 },
    List(Vec<Param>),
}

/// `function`; a declaration has no body.
#[derive(Drop)]
pub struct Function {
    pub stars: Stars,
    pub name: Name,
    pub at: u32,
    pub open: u32,
    pub params: Params,
    pub body: Option<Vec<Item>>,
}

/// What stands behind the words of a type at file level. `Globals` has at least one declarator.
#[derive(Drop)]
pub enum Declared {
    Function(Function),
    Globals(Vec<Declarator>),
}

/// `external`
#[derive(Drop)]
pub struct External {
    pub static_at: Option<u32>,
    pub spec: Spec,
    pub declared: Declared,
}

/// `unit`, the offset of its end, and those of the `}` that end the bodies of its functions, in order.
#[derive(Drop)]
pub struct Ast {
    pub externals: Vec<External>,
    pub body_ends: ListOf<u32>,
    pub end: u32,
}
