// What a description says.
use gg_base::{ListOf, Name, Size};
use md_reader_pieces::Line;
use tree_core::Tok;

/// What a class stands for: a register, a value or a place of a size, a constant, an address, or a
/// statement.
#[derive(Clone, Copy, Debug, PartialEq, Eq)]
pub enum Kind {
    Reg,
    Value(Size),
    Place(Size),
    Con,
    Ea,
    Nothing,
}

/// A class with its name, of 1 to 31 lower-case letters and digits, the first of them a letter.
#[derive(Drop)]
pub struct Class {
    pub name: Name,
    pub kind: Kind,
}

/// A symbol of a right side: a token, or the number of a class, from 0.
#[derive(Clone, Copy, Debug, PartialEq, Eq)]
pub enum Sym {
    Tok(Tok),
    Class(u16),
}

/// When a rule may be taken. Symbols of the right side are numbered from 1.
#[derive(Clone, Copy, Debug, PartialEq, Eq)]
pub enum Restriction {
    /// The operands of the two symbols are spelled alike.
    Same(u8, u8),
    /// The symbol's constant, with its sign, lies between the two, both included.
    Range(u8, i32, i32),
    /// The branch's relation compares with signs, or for equality.
    Signed(u8),
}

/// What a rule gives.
#[derive(Drop)]
pub enum Give {
    /// A register that is taken while the operands are held.
    Fresh,
    /// A register that is taken when the operands' are given back.
    Reuse,
    /// Nothing, and a register that is taken for the template's lines alone.
    Scratch,
    Nothing,
    /// An operand.
    Shape(Line),
}

/// The symbols of a right side, in order.
pub type Symbols = ListOf<Sym>;

/// The restrictions of a rule, in order.
pub type Restrictions = ListOf<Restriction>;

/// The lines of a rule's template, in order.
pub type Lines = ListOf<Line>;

/// A rule: a class, a tree pattern in prefix order, when it may be taken, what it writes and gives.
#[derive(Drop)]
pub struct Rule {
    pub left: u16,
    pub right: Symbols,
    pub restrictions: Restrictions,
    pub lines: Lines,
    pub give: Give,
}
