// What an instruction computes, on terms.
ghost use Rattle.std.specs.Prelude.{◌≡◌, IfOk};
ghost use Rattle.term_core.specs.Shape.{shape_of, Constant, Unary, Binary};
ghost use Rattle.vax_templates.specs.Giving.{extended, truncated};

use gg_base::{NoMemory, Size};
use std::alloc::Global;
use term_core::{BinaryOp, Term, UnaryOp, copy, unary};
use vax_target_taking::heap::{boxed, copied, joined};

/// What an instruction computes: a result, a quotient with its divisor, two numbers that are compared, or one whose sign and zero are
/// tested.
#[derive(Drop)]
pub enum Outcome {
    Computes(Box<Term>),
    Divides(Box<Term>, Box<Term>),
    Compares(Box<Term>, Box<Term>),
    Tests(Box<Term>),
}

/// The operator on a copy of the term.
pub fn one(alloc: Global, op: UnaryOp, t: &Term) -> Result<Box<Term>, NoMemory>
    ensures { IfOk result (λ r. shape_of r.value ≡ Unary op (shape_of t.now)) }
{
    let t = copy(alloc, t)?;
    boxed(alloc, unary(alloc, op, t)?)
}

/// The operator on copies of the terms.
pub fn two(alloc: Global, op: BinaryOp, a: &Term, b: &Term) -> Result<Box<Term>, NoMemory>
    ensures { IfOk result (λ r. shape_of r.value ≡ Binary op (shape_of a.now) (shape_of b.now)) }
{
    let a = copied(alloc, a)?;
    let b = copied(alloc, b)?;
    joined(alloc, op, a, b)
}

/// The operator on a copy of the term and a constant.
pub fn with_constant(alloc: Global, op: BinaryOp, a: &Term, n: u32) -> Result<Box<Term>, NoMemory>
    ensures { IfOk result (λ r. shape_of r.value ≡ Binary op (shape_of a.now) (Constant n)) }
{
    let a = copied(alloc, a)?;
    let b = boxed(alloc, Term::K(n))?;
    joined(alloc, op, a, b)
}

/// A number of this size as a longword of the same sign.
pub fn extended(alloc: Global, size: Size, t: &Term) -> Result<Box<Term>, NoMemory>
    ensures { IfOk result (λ r. shape_of r.value ≡ extended size (shape_of t.now)) }
{
    match size {
        Size::Byte => one(alloc, UnaryOp::Sx8, t),
        Size::Word => one(alloc, UnaryOp::Sx16, t),
        Size::Long => copied(alloc, t),
    }
}

/// The low part of a number, as a longword.
pub fn truncated(alloc: Global, size: Size, t: &Term) -> Result<Box<Term>, NoMemory>
    ensures { IfOk result (λ r. shape_of r.value ≡ truncated size (shape_of t.now)) }
{
    match size {
        Size::Byte => one(alloc, UnaryOp::Zx8, t),
        Size::Word => one(alloc, UnaryOp::Zx16, t),
        Size::Long => copied(alloc, t),
    }
}
