// The table of what instructions compute, on terms.
ghost use Rattle.std.specs.Prelude.{◌≡◌, IfOk};
ghost use Rattle.term_core.specs.declared.operator.UnaryOp.TheVariants as unary_op;
ghost use Rattle.term_core.specs.declared.operator.BinaryOp.TheVariants as binary_op;
ghost use Rattle.term_core.specs.Shape.{shape_of, Unary, Binary};
ghost use Rattle.l32_machine.specs.declared.function.Function.TheVariants as functions;
ghost use Rattle.l32_templates.specs.Giving.{count, given};
ghost use Rattle.template_judging.specs.Views.{given_of};

use gg_base::NoMemory;
use l32_machine::function::Function;
use std::alloc::Global;
use template_judging::outcome::{Outcome, extended, one, two, with_constant};
use term_core::{BinaryOp, Term, UnaryOp};
use vax_target_taking::heap::{copied, joined};

// How far a shift goes: it counts modulo 32.
fn count(alloc: Global, t: &Term) -> Result<Box<Term>, NoMemory>
    ensures { IfOk result (λ r. shape_of r.value ≡ count (shape_of t.now)) }
{
    with_constant(alloc, BinaryOp::And, t, 31)
}

fn shifted_left(alloc: Global, a: &Term, b: &Term) -> Result<Box<Term>, NoMemory>
    ensures { IfOk result (λ r. shape_of r.value ≡ Binary binary_op.Ash (count (shape_of b.now)) (shape_of a.now)) }
{
    let far = count(alloc, b)?;
    let a = copied(alloc, a)?;
    joined(alloc, BinaryOp::Ash, far, a)
}

fn shifted_right(alloc: Global, a: &Term, b: &Term) -> Result<Box<Term>, NoMemory>
    ensures { IfOk result (λ r. shape_of r.value ≡ Binary binary_op.Ash (Unary unary_op.Neg (count (shape_of b.now))) (shape_of a.now)) }
{
    let far = count(alloc, b)?;
    let far = one(alloc, UnaryOp::Neg, &far)?;
    let a = copied(alloc, a)?;
    joined(alloc, BinaryOp::Ash, far, a)
}

fn quotient(alloc: Global, a: &Term, b: &Term) -> Result<Outcome, NoMemory>
    ensures { IfOk result (λ g. given_of g ≡ given functions.Divide (shape_of a.now) (shape_of b.now)) }
{
    let t = two(alloc, BinaryOp::Div, a, b)?;
    Ok(Outcome::Divides(t, copied(alloc, b)?))
}

/// What is computed of the first and the second operand that are read.
pub fn given(alloc: Global, function: Function, a: &Term, b: &Term) -> Result<Outcome, NoMemory>
    ensures { IfOk result (λ g. given_of g ≡ given function (shape_of a.now) (shape_of b.now)) }
{
    match function {
        Function::Copy => Ok(Outcome::Computes(copied(alloc, a)?)),
        Function::SignExtend(size) => Ok(Outcome::Computes(extended(alloc, size, a)?)),
        Function::Negate => Ok(Outcome::Computes(one(alloc, UnaryOp::Neg, a)?)),
        Function::Complement => Ok(Outcome::Computes(one(alloc, UnaryOp::Com, a)?)),
        Function::Add => Ok(Outcome::Computes(two(alloc, BinaryOp::Add, a, b)?)),
        Function::Subtract => Ok(Outcome::Computes(two(alloc, BinaryOp::Sub, a, b)?)),
        Function::Multiply => Ok(Outcome::Computes(two(alloc, BinaryOp::Mul, a, b)?)),
        Function::Divide => quotient(alloc, a, b),
        Function::And => Ok(Outcome::Computes(two(alloc, BinaryOp::And, a, b)?)),
        Function::Or => Ok(Outcome::Computes(two(alloc, BinaryOp::Or, a, b)?)),
        Function::ExclusiveOr => Ok(Outcome::Computes(two(alloc, BinaryOp::Xor, a, b)?)),
        Function::ShiftLeft => Ok(Outcome::Computes(shifted_left(alloc, a, b)?)),
        Function::ShiftRight => Ok(Outcome::Computes(shifted_right(alloc, a, b)?)),
    }
}
