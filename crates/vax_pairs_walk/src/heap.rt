// Terms on the heap, as states and operands hold them.
ghost use Rattle.std.specs.Prelude.{◌≡◌, IfOk};
ghost use Rattle.term_core.specs.Shape.{shape_of, Unary, Binary};

use gg_base::NoMemory;
use std::alloc::Global;
use term_core::{BinaryOp, Term, UnaryOp, binary, copy, unary};

/// The term in a box of its own.
pub fn boxed(alloc: Global, t: Term) -> Result<Box<Term>, NoMemory>
    ensures { IfOk result (λ b. shape_of b.value ≡ shape_of t) }
{
    Ok(Box::new(alloc, t)?)
}

/// A copy of the term, in a box of its own.
pub fn copied(alloc: Global, t: &Term) -> Result<Box<Term>, NoMemory>
    ensures { IfOk result (λ b. shape_of b.value ≡ shape_of t.now) }
{
    boxed(alloc, copy(alloc, t)?)
}

/// The operator on the term, in a box of its own.
pub fn applied(alloc: Global, op: UnaryOp, t: Box<Term>) -> Result<Box<Term>, NoMemory>
    ensures { IfOk result (λ r. shape_of r.value ≡ Unary op (shape_of t.value)) }
{
    boxed(alloc, unary(alloc, op, Box::into_inner(t))?)
}

/// The operator on the two terms, in a box of its own.
pub fn joined(
    alloc: Global,
    op: BinaryOp,
    a: Box<Term>,
    b: Box<Term>,
) -> Result<Box<Term>, NoMemory>
    ensures { IfOk result (λ r. shape_of r.value ≡ Binary op (shape_of a.value) (shape_of b.value)) }
{
    boxed(
        alloc,
        binary(alloc, op, Box::into_inner(a), Box::into_inner(b))?,
    )
}
