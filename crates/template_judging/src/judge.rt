// A machine, as the judging of templates sees it.
ghost use Rattle.vax_target_taking.specs.Answers.{Judges};
ghost use Rattle.vax_target_taking.specs.Views.{term_of};
ghost use Rattle.sel_terms.specs.Effects.{act_of};
ghost use Rattle.template_judging.specs.Meaning.{LineMeaning};
ghost use Rattle.template_judging.specs.Stages.{line_after};
ghost use Rattle.template_judging.specs.Views.{deed_of};

use crate::step::{Before, Step};
use md_reader::{Kind, Piece};
use sel_terms::Act;
use term_core::Term;
use vax_target_forms::refusal::Refusal;
use vax_target_taking::standing::Template;

/// A machine that judges what a line does and what an operand is that a rule gives.
pub trait LineJudge {
    /// What lines and operands mean.
    ghost meaning: { LineMeaning };

    /// What a line does, where `%0` holds this and the line before left that.
    fn line_did(
        &self,
        template: Template<'_>,
        is_first: bool,
        zero: &Option<Box<Term>>,
        before: &Before,
        pieces: &[Piece],
    ) -> Result<Step, Refusal>
        ensures { Judges deed_of result (line_after (meaning.did template.entry.setting template.entry.holes.now) is_first zero.now
            before.now pieces.now) };

    /// What the operand is that a rule of this kind gives.
    fn shape_given(
        &self,
        template: Template<'_>,
        kind: Option<Kind>,
        pieces: &[Piece],
    ) -> Result<Act, Refusal>
        ensures { Judges act_of result (meaning.gives template.entry.setting template.entry.holes.now kind pieces.now) };
}
