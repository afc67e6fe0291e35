// What the symbols of a pattern are to those above them.

ghost use Rattle.std.specs.Prelude.{◌≡◌};
ghost use Rattle.sel_terms.specs.Parts.{role_of_token, role_of_kind, role_of};

use gg_base::Size;
use md_reader::{Class, Kind, Sym, kind_at};
use term_core::{BinaryOp, UnaryOp};
use tree_core::Tok;

/// A symbol without kids: a constant, the symbol's own value or place, or a statement.
#[derive(Clone, Copy, Debug, PartialEq, Eq)]
pub enum LeafRole {
    Constant(u32),
    Symbol,
    Home(Size),
    Call,
    Save,
    Jump,
}

/// A token with one kid: memory at its value, an operator on it, or a statement.
#[derive(Clone, Copy, Debug, PartialEq, Eq)]
pub enum OneRole {
    Memory(Size),
    Operator(UnaryOp),
    Push,
    Return,
}

/// A token with two kids: an operator on them, or a statement.
#[derive(Clone, Copy, Debug, PartialEq, Eq)]
pub enum TwoRole {
    Operator(BinaryOp),
    Quotient,
    Remainder,
    LeftShift,
    RightShift,
    Assign,
    Branch,
}

/// A symbol's role, by the number of its kids.
#[derive(Clone, Copy, Debug, PartialEq, Eq)]
pub enum Role {
    Leaf(LeafRole),
    One(OneRole),
    Two(TwoRole),
}

fn role_of_token(token: Tok) -> Role
    ensures { result ≡ role_of_token token }
{
    match token {
        Tok::Zero => Role::Leaf(LeafRole::Constant(0)),
        Tok::One => Role::Leaf(LeafRole::Constant(1)),
        Tok::Two => Role::Leaf(LeafRole::Constant(2)),
        Tok::Four => Role::Leaf(LeafRole::Constant(4)),
        Tok::Eight => Role::Leaf(LeafRole::Constant(8)),
        Tok::Const | Tok::Gaddr => Role::Leaf(LeafRole::Symbol),
        Tok::Loc | Tok::Arg => Role::Leaf(LeafRole::Home(Size::Long)),
        Tok::IndirB => Role::One(OneRole::Memory(Size::Byte)),
        Tok::IndirW => Role::One(OneRole::Memory(Size::Word)),
        Tok::IndirL => Role::One(OneRole::Memory(Size::Long)),
        Tok::Plus => Role::Two(TwoRole::Operator(BinaryOp::Add)),
        Tok::Minus => Role::Two(TwoRole::Operator(BinaryOp::Sub)),
        Tok::Mul => Role::Two(TwoRole::Operator(BinaryOp::Mul)),
        Tok::Div => Role::Two(TwoRole::Quotient),
        Tok::Mod => Role::Two(TwoRole::Remainder),
        Tok::And => Role::Two(TwoRole::Operator(BinaryOp::And)),
        Tok::Or => Role::Two(TwoRole::Operator(BinaryOp::Or)),
        Tok::Xor => Role::Two(TwoRole::Operator(BinaryOp::Xor)),
        Tok::Lsh => Role::Two(TwoRole::LeftShift),
        Tok::Rsh => Role::Two(TwoRole::RightShift),
        Tok::Neg => Role::One(OneRole::Operator(UnaryOp::Neg)),
        Tok::Com => Role::One(OneRole::Operator(UnaryOp::Com)),
        Tok::Sxb => Role::One(OneRole::Operator(UnaryOp::Sx8)),
        Tok::Sxw => Role::One(OneRole::Operator(UnaryOp::Sx16)),
        Tok::Zxb | Tok::Ncb => Role::One(OneRole::Operator(UnaryOp::Zx8)),
        Tok::Zxw | Tok::Ncw => Role::One(OneRole::Operator(UnaryOp::Zx16)),
        Tok::AssignB | Tok::AssignW | Tok::AssignL => Role::Two(TwoRole::Assign),
        Tok::Cbr => Role::Two(TwoRole::Branch),
        Tok::Push => Role::One(OneRole::Push),
        Tok::Ret => Role::One(OneRole::Return),
        Tok::Call => Role::Leaf(LeafRole::Call),
        Tok::Save => Role::Leaf(LeafRole::Save),
        Tok::Jump | Tok::End => Role::Leaf(LeafRole::Jump),
    }
}

fn role_of_kind(kind: Option<Kind>) -> LeafRole
    ensures { result ≡ role_of_kind kind }
{
    match kind {
        Some(Kind::Place(size)) => LeafRole::Home(size),
        _ => LeafRole::Symbol,
    }
}

/// The role of a symbol.
pub fn role_of(classes: &[Class], symbol: Sym) -> Role
    ensures { result ≡ role_of classes.now symbol }
{
    match symbol {
        Sym::Tok(token) => role_of_token(token),
        Sym::Class(class) => Role::Leaf(role_of_kind(kind_at(classes, class))),
    }
}
