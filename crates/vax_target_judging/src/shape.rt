// What an operand is that a rule gives.
ghost use Rattle.std.specs.Prelude.{◌≡◌};
ghost use Rattle.sel_terms.specs.Effects.{act_of};
ghost use Rattle.vax_templates.specs.GiveLines.{base_number, shape_given, given_shape};
ghost use Rattle.vax_target_taking.specs.Answers.{Judges};

use gg_base::Size;
use md_reader::{Kind, Piece};
use sel_terms::Act;
use template_judging::gift::{
    address_given, constant_given, place_given, register_given, value_given,
};
use vax_target_forms::instruction::shape_of_pieces;
use vax_target_forms::refusal::{NOT_INSTR, Refusal};
use vax_target_taking::standing::Template;
use vax_templates::{Base, Form};

fn base_number(template: Template<'_>, base: Base) -> Result<Act, Refusal>
    ensures { Judges act_of result (base_number template.entry.holes.now base) }
{
    match base {
        Base::Hole(i) => constant_given(template, i),
        _ => Err(NOT_INSTR),
    }
}

// What an operand is that a rule of this kind gives.
#[tactic(auto, unfolding(vax_templates::specs::GiveLines::shape_given))]
fn shape_given(template: Template<'_>, kind: Option<Kind>, form: Form) -> Result<Act, Refusal>
    ensures { Judges act_of result (shape_given template.entry.setting template.entry.holes.now kind form) }
{
    match kind {
        Some(Kind::Reg) => register_given(template.form_where(&None, form, Size::Long)?),
        Some(Kind::Con) if form.index.is_none() => base_number(template, form.base),
        Some(Kind::Ea) if form.index.is_none() => {
            address_given(template.form_where(&None, form, Size::Byte)?)
        }
        Some(Kind::Value(size)) => {
            let location = template.form_where(&None, form, size)?;
            value_given(template.fetched(&None, &location, size)?)
        }
        Some(Kind::Place(size)) => place_given(size, template.form_where(&None, form, size)?),
        Some(Kind::Con) | Some(Kind::Ea) | Some(Kind::Nothing) | None => Err(NOT_INSTR),
    }
}

/// What the operand is that these pieces spell, for a rule of this kind.
pub fn given_shape(
    template: Template<'_>,
    kind: Option<Kind>,
    pieces: &[Piece],
) -> Result<Act, Refusal>
    ensures { Judges act_of result (given_shape template.entry.setting template.entry.holes.now kind pieces.now) }
{
    let form = shape_of_pieces(template.alloc, pieces)?;
    shape_given(template, kind, form)
}
