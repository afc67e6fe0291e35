// Terms from their parts, as they are.

ghost use Rattle.std.specs.Prelude.{◌≡◌, IfOk};
ghost use Rattle.term_core.specs.Shape.{shape_of, Unary, Binary};
ghost use Rattle.term_core.specs.Form.{shape_of_form};

use crate::operator::{BinaryOp, UnaryOp};
use crate::term::{Form, Term, form_of};
use gg_base::NoMemory;
use std::alloc::Global;

/// The operator on a term.
pub fn unary(alloc: Global, op: UnaryOp, t: Term) -> Result<Term, NoMemory>
    ensures { IfOk result (λ r. shape_of r ≡ Unary op (shape_of t)) }
{
    Ok(Term::Unary(op, Box::new(alloc, t)?))
}

/// The operator on two terms.
pub fn binary(alloc: Global, op: BinaryOp, a: Term, b: Term) -> Result<Term, NoMemory>
    ensures { IfOk result (λ r. shape_of r ≡ Binary op (shape_of a) (shape_of b)) }
{
    let a = Box::new(alloc, a)?;
    let b = Box::new(alloc, b)?;
    Ok(Term::Binary(op, a, b))
}

/// A term of the same shape.
#[cycle(copy)]
pub fn copy(alloc: Global, t: &Term) -> Result<Term, NoMemory>
    ensures { IfOk result (λ r. shape_of r ≡ shape_of t.now) }
{
    copy_form(alloc, form_of(t))
}

#[cycle(copy)]
fn copy_form(alloc: Global, t: Form<'_>) -> Result<Term, NoMemory>
    ensures { IfOk result (λ r. shape_of r ≡ shape_of_form t.entry) }
{
    match t {
        Form::Constant(n) => Ok(Term::K(n)),
        Form::Symbol(i) => Ok(Term::V(i)),
        Form::LastResult => Ok(Term::Res),
        Form::Memory(size, a) => {
            let a = copy(alloc, a)?;
            Ok(Term::Mem(size, Box::new(alloc, a)?))
        }
        Form::Unary(op, t) => {
            let t = copy(alloc, t)?;
            unary(alloc, op, t)
        }
        Form::Binary(op, a, b) => {
            let a = copy(alloc, a)?;
            let b = copy(alloc, b)?;
            binary(alloc, op, a, b)
        }
    }
}
