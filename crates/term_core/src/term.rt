// Terms.

ghost use Rattle.std.specs.Prelude.{◌≡◌};
ghost use Rattle.term_core.specs.Shape.{shape_of, size_of};
ghost use Rattle.term_core.specs.Form.{shape_of_form};

use crate::operator::{BinaryOp, UnaryOp};
use gg_base::Size;

/// What a pattern or a template computes, a longword: a constant; the value of the rule's symbol with this number, counted from 1, as a
/// longword (of an address its own value, of a byte or word with zeros above); the last call's result; what memory holds at an address;
/// or an operator on such terms. The order of the variants, and that of the operators, is the order of terms.
#[derive(Drop)]
pub enum Term {
    K(u32),
    V(u8),
    Res,
    Mem(Size, Box<Term>),
    Unary(UnaryOp, Box<Term>),
    Binary(BinaryOp, Box<Term>, Box<Term>),
}

/// A term's form with its parts.
#[derive(Clone, Copy)]
pub enum Form<'a> {
    Constant(u32),
    Symbol(u8),
    LastResult,
    Memory(Size, &'a Term),
    Unary(UnaryOp, &'a Term),
    Binary(BinaryOp, &'a Term, &'a Term),
}

/// The form of a term with its parts.
pub fn form_of(t: &Term) -> Form<'_>
    ensures shape { shape_of_form result ≡ shape_of t.now }
    ensures size { size_of (shape_of_form result) ≡ size_of (shape_of t.now) }
{
    match t {
        Term::K(n) => Form::Constant(*n),
        Term::V(i) => Form::Symbol(*i),
        Term::Res => Form::LastResult,
        Term::Mem(size, a) => Form::Memory(*size, a),
        Term::Unary(op, t) => Form::Unary(*op, t),
        Term::Binary(op, a, b) => Form::Binary(*op, a, b),
    }
}
