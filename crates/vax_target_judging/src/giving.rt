// The table of what instructions compute, on terms.
ghost use Rattle.std.specs.Prelude.{◌≡◌, IfOk};
ghost use Rattle.term_core.specs.declared.operator.UnaryOp.TheVariants as unary_op;
ghost use Rattle.term_core.specs.declared.operator.BinaryOp.TheVariants as binary_op;
ghost use Rattle.term_core.specs.Shape.{shape_of, Constant, Unary, Binary};
ghost use Rattle.vax_machine.specs.declared.function.Function.TheVariants as functions;
ghost use Rattle.vax_templates.specs.Giving.{Compares, extended, given};
ghost use Rattle.template_judging.specs.Views.{given_of};

use gg_base::{NoMemory, Size};
use std::alloc::Global;
use template_judging::outcome::{Outcome, extended, one, truncated, two, with_constant};
use term_core::{BinaryOp, Term, UnaryOp};
use vax_machine::function::Function;
use vax_target_taking::heap::{boxed, copied, joined};

fn quotient(alloc: Global, a: &Term, b: &Term) -> Result<Outcome, NoMemory>
    ensures { IfOk result (λ g. given_of g ≡ given functions.Divide (shape_of a.now) (shape_of b.now)) }
{
    let t = two(alloc, BinaryOp::Div, b, a)?;
    Ok(Outcome::Divides(t, copied(alloc, a)?))
}

fn compared(alloc: Global, size: Size, a: &Term, b: &Term) -> Result<Outcome, NoMemory>
    ensures { IfOk result (λ g. given_of g ≡ given (functions.Compare size) (shape_of a.now) (shape_of b.now)) }
{
    let a = extended(alloc, size, a)?;
    Ok(Outcome::Compares(a, extended(alloc, size, b)?))
}

fn compared_with_zero(alloc: Global, size: Size, a: &Term) -> Result<Outcome, NoMemory>
    ensures { IfOk result (λ g. given_of g ≡ Compares (extended size (shape_of a.now)) (Constant 0)) }
{
    let a = extended(alloc, size, a)?;
    Ok(Outcome::Compares(a, boxed(alloc, Term::K(0))?))
}

fn bits_cleared(alloc: Global, a: &Term, b: &Term) -> Result<Box<Term>, NoMemory>
    ensures { IfOk result (λ r. shape_of r.value ≡ Binary binary_op.And (shape_of b.now) (Unary unary_op.Com (shape_of a.now))) }
{
    let mask = one(alloc, UnaryOp::Com, a)?;
    let b = copied(alloc, b)?;
    joined(alloc, BinaryOp::And, b, mask)
}

/// What is computed of the first and the second operand.
pub fn given(alloc: Global, function: Function, a: &Term, b: &Term) -> Result<Outcome, NoMemory>
    ensures { IfOk result (λ g. given_of g ≡ given function (shape_of a.now) (shape_of b.now)) }
{
    match function {
        Function::Copy(_) => Ok(Outcome::Computes(copied(alloc, a)?)),
        Function::Clear => Ok(Outcome::Computes(boxed(alloc, Term::K(0))?)),
        Function::Negate => Ok(Outcome::Computes(one(alloc, UnaryOp::Neg, a)?)),
        Function::Complement => Ok(Outcome::Computes(one(alloc, UnaryOp::Com, a)?)),
        Function::SignExtend(size) => Ok(Outcome::Computes(extended(alloc, size, a)?)),
        Function::Truncate(size) => Ok(Outcome::Computes(truncated(alloc, size, a)?)),
        Function::Add => Ok(Outcome::Computes(two(alloc, BinaryOp::Add, a, b)?)),
        Function::Subtract => Ok(Outcome::Computes(two(alloc, BinaryOp::Sub, b, a)?)),
        Function::Multiply => Ok(Outcome::Computes(two(alloc, BinaryOp::Mul, a, b)?)),
        Function::Divide => quotient(alloc, a, b),
        Function::Increment => Ok(Outcome::Computes(with_constant(alloc, BinaryOp::Add, a, 1)?)),
        Function::Decrement => Ok(Outcome::Computes(with_constant(alloc, BinaryOp::Sub, a, 1)?)),
        Function::BitSet => Ok(Outcome::Computes(two(alloc, BinaryOp::Or, a, b)?)),
        Function::BitClear => Ok(Outcome::Computes(bits_cleared(alloc, a, b)?)),
        Function::ExclusiveOr => Ok(Outcome::Computes(two(alloc, BinaryOp::Xor, a, b)?)),
        Function::BitTest => Ok(Outcome::Tests(two(alloc, BinaryOp::And, a, b)?)),
        Function::Shift => Ok(Outcome::Computes(two(alloc, BinaryOp::Ash, a, b)?)),
        Function::Compare(size) => compared(alloc, size, a, b),
        Function::CompareWithZero(size) => compared_with_zero(alloc, size, a),
    }
}
