// Where an operand of a template stands, on terms.
ghost use Rattle.std.specs.Prelude.{◌≡◌};
ghost use Rattle.vax_templates.specs.HoleTerms.{absolute_term, register_term};
ghost use Rattle.vax_templates.specs.Standing.{displaced};
ghost use Rattle.vax_templates.specs.Settings.{hole_at};
ghost use Rattle.vax_target_taking.specs.Answers.{Judges};
ghost use Rattle.vax_target_taking.specs.Views.{where_of, held, term_of};
ghost use Rattle.l32_templates.specs.Standing.{where_deferred, form_where};

use l32_templates::Form;
use std::alloc::Global;
use term_core::{BinaryOp, Term, UnaryOp, unary};
use vax_target_forms::refusal::{NOT_INSTR, Refusal};
use vax_target_taking::heap::{boxed, joined};
use vax_target_taking::setting::hole_at;
use vax_target_taking::standing::{Location, Template, through, where_hole, where_own, where_zero};
use vax_templates::{Hole, Number};

// The sum of a number and a register.
fn displaced(
    template: Template<'_>,
    zero: &Option<Box<Term>>,
    number: Number,
    i: u8,
) -> Result<Box<Term>, Refusal>
    ensures { Judges held result (displaced (absolute_term template.entry.holes.now number)
        (register_term template.entry.setting template.entry.holes.now (term_of zero.now) i)) }
{
    let d = boxed(template.alloc, template.absolute_term(number)?)?;
    let r = template.register_term(zero, i)?;
    Ok(joined(template.alloc, BinaryOp::Add, d, r)?)
}

// Memory at the address that a local or an argument holds.
fn where_deferred(alloc: Global, hole: Hole, i: u8) -> Result<Location, Refusal>
    ensures { Judges where_of result (where_deferred hole i) }
{
    match hole {
        Hole::Local => Ok(Location::At(boxed(alloc, Term::V(i))?, None)),
        _ => Err(NOT_INSTR),
    }
}

/// Where an operand stands, where `%0` holds this.
#[tactic(auto, unfolding(l32_templates::specs::Standing::form_where))]
pub fn form_where(
    template: Template<'_>,
    zero: &Option<Box<Term>>,
    form: Form,
) -> Result<Location, Refusal>
    ensures { Judges where_of result (form_where template.entry.setting template.entry.holes.now (term_of zero.now) form) }
{
    let alloc = template.alloc;
    match form {
        Form::RegisterZero => where_zero(template.setting.opening),
        Form::Hole(0) => where_own(template.setting.own),
        Form::Hole(i) => where_hole(alloc, hole_at(template.holes, i), i),
        Form::Immediate(number) => {
            let t = template.absolute_term(number)?;
            Ok(Location::Number(boxed(alloc, t)?))
        }
        Form::Negative(i) => {
            let t = unary(alloc, UnaryOp::Neg, template.constant(i)?)?;
            Ok(Location::Number(boxed(alloc, t)?))
        }
        Form::Displacement(number, i) => Ok(Location::At(
            displaced(template, zero, number, i)?,
            None,
        )),
        Form::DisplacementDeferred(number, i) => {
            let a = displaced(template, zero, number, i)?;
            Ok(through(alloc, a)?)
        }
        Form::Deferred(i) => where_deferred(alloc, hole_at(template.holes, i), i),
    }
}
