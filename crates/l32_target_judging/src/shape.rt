// What an operand is that a rule gives.
ghost use Rattle.sel_terms.specs.Effects.{act_of};
ghost use Rattle.l32_templates.specs.GiveLines.{form_number, shape_given, given_shape};
ghost use Rattle.vax_target_taking.specs.Answers.{Judges};

use l32_target_forms::instruction::shape_of_pieces;
use l32_target_taking::standing::form_where;
use l32_target_taking::taking::sourced;
use l32_templates::Form;
use md_reader::{Kind, Piece};
use sel_terms::Act;
use template_judging::gift::{
    address_given, constant_given, place_given, register_given, value_given,
};
use vax_target_forms::refusal::{NOT_INSTR, Refusal};
use vax_target_taking::standing::Template;

fn form_number(template: Template<'_>, form: Form) -> Result<Act, Refusal>
    ensures { Judges act_of result (form_number template.entry.holes.now form) }
{
    match form {
        Form::Hole(i) => constant_given(template, i),
        _ => Err(NOT_INSTR),
    }
}

// What an operand is that a rule of this kind gives.
#[tactic(auto, unfolding(l32_templates::specs::GiveLines::shape_given))]
fn shape_given(template: Template<'_>, kind: Option<Kind>, form: Form) -> Result<Act, Refusal>
    ensures { Judges act_of result (shape_given template.entry.setting template.entry.holes.now kind form) }
{
    match kind {
        Some(Kind::Reg) => register_given(form_where(template, &None, form)?),
        Some(Kind::Con) => form_number(template, form),
        Some(Kind::Ea) => address_given(form_where(template, &None, form)?),
        Some(Kind::Value(size)) => {
            let location = form_where(template, &None, form)?;
            value_given(sourced(template, &None, &location, size)?)
        }
        Some(Kind::Place(size)) => place_given(size, form_where(template, &None, form)?),
        Some(Kind::Nothing) | None => Err(NOT_INSTR),
    }
}

/// What the operand is that these pieces spell, for a rule of this kind.
pub fn given_shape(
    template: Template<'_>,
    kind: Option<Kind>,
    pieces: &[Piece],
) -> Result<Act, Refusal>
    ensures { Judges act_of result (given_shape template.entry.setting template.entry.holes.now kind pieces.now) }
{
    let form = shape_of_pieces(template.alloc, pieces)?;
    shape_given(template, kind, form)
}
