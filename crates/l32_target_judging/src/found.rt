// What a template does, and the first fault in it.
ghost use Rattle.sel_terms.specs.Effects.{effect_of};
ghost use Rattle.template_judging.specs.Answers.{Answers};
ghost use Rattle.l32_templates.specs.Found.{found, saved_found};

use crate::judging::line_did;
use crate::shape::given_shape;
use md_reader::{Class, Kind, Line, Piece, Rule};
use sel_target::TargetFault;
use sel_terms::{Act, Effect};
use std::alloc::Global;
use template_judging::LineJudge;
use template_judging::step::{Before, Step};
use term_core::Term;
use vax_target_forms::refusal::Refusal;
use vax_target_taking::standing::Template;

/// L32, as the judging of templates sees it.
#[derive(Clone, Copy, Debug, PartialEq, Eq)]
pub struct Lines32;

impl LineJudge for Lines32 {
    ghost use Rattle.l32_templates.specs.Found.{l32_lines};

    ghost meaning = { l32_lines };

    fn line_did(
        &self,
        template: Template<'_>,
        is_first: bool,
        zero: &Option<Box<Term>>,
        before: &Before,
        pieces: &[Piece],
    ) -> Result<Step, Refusal> {
        line_did(template, is_first, zero, before, pieces)
    }

    fn shape_given(
        &self,
        template: Template<'_>,
        kind: Option<Kind>,
        pieces: &[Piece],
    ) -> Result<Act, Refusal> {
        given_shape(template, kind, pieces)
    }
}

/// The effect of a rule's template, or the first fault in it.
pub fn found(alloc: Global, rule: &Rule, classes: &[Class]) -> Result<Effect, TargetFault>
    ensures { Answers effect_of result (found classes.now rule.now) }
{
    template_judging::found::found(alloc, &Lines32, rule, classes)
}

/// The effect of a line that saves what is of this kind, or, for a register, of a line that reloads one, or the fault in it.
pub fn saved_found(alloc: Global, kind: Kind, line: &Line) -> Result<Effect, TargetFault>
    ensures { Answers effect_of result (saved_found kind line.now) }
{
    template_judging::found::saved_found(alloc, &Lines32, kind, line)
}
