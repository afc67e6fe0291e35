// What a template does, and the first fault in it.
ghost use Rattle.std.specs.Prelude.{◌≡◌, OnOk, true, map};
ghost use Rattle.term_core.specs.Shape.{shape_of};
ghost use Rattle.sel_terms.specs.Effects.{act_of, effect_of};
ghost use Rattle.vax_templates.specs.Progress.{start, progressed, last_line};
ghost use Rattle.vax_templates.specs.GiveLines.{left_value, last_deed, given_line};
ghost use Rattle.vax_templates.specs.Found.{saved_give};
ghost use Rattle.vax_target_taking.specs.Answers.{Judges};
ghost use Rattle.vax_target_taking.specs.Views.{term_of};
ghost use Rattle.template_judging.specs.Answers.{Answers, Goes, fault_at};
ghost use Rattle.template_judging.specs.Lines.{lines_judged, given_by};
ghost use Rattle.template_judging.specs.Found.{ended, found, saved_found};
ghost use Rattle.template_judging.specs.Stages.{judged_run};
ghost use Rattle.template_judging.specs.Views.{last_of, deed_of, progress_of};

use crate::dropped::{LineReads, none_dropped};
use crate::judge::LineJudge;
use crate::step::{Before, Step};
use gg_base::NoMemory;
use md_reader::{Class, Give, Kind, Line, Rule, kind_at};
use sel_target::TargetFault;
use sel_terms::{Act, Effect};
use std::alloc::Global;
use term_core::Term;
use vax_target_forms::refusal::{NOT_INSTR, Refusal};
use vax_target_taking::setting::{holes_of, is_reload, saved_hole, saved_setting, setting_of};
use vax_target_taking::standing::Template;

/// What the lines so far left: what `%0` holds, what the last line left to the next, by what was divided, and what was read of memory.
#[derive(Drop)]
pub struct Run {
    pub own: Option<Box<Term>>,
    pub leaves: Before,
    pub divisors: Vec<Term>,
    pub reads: Vec<LineReads>,
}

// The refusal of a line with this number.
fn at_line(line: u32, refusal: Refusal) -> TargetFault
    ensures { result ≡ fault_at line refusal }
{
    match refusal {
        Refusal::NoMemory => TargetFault::NoMemory,
        Refusal::Wrong(kind) => TargetFault::At { line, kind },
    }
}

impl Run {
    fn start(alloc: Global) -> Self
        ensures { progress_of result ≡ start }
    {
        Run {
            own: None,
            leaves: Before::Plain,
            divisors: Vec::new(alloc),
            reads: Vec::new(alloc),
        }
    }

    fn go_on(&mut self, line: u32, step: Step) -> Result<(), NoMemory>
        ensures { OnOk result (progress_of self.new ≡ progressed line (progress_of self.old) (deed_of step)) }
    {
        let Step {
            own,
            leaves,
            mut divisors,
            reads,
            ..
        } = step;
        self.divisors.append(&mut divisors)?;
        self.reads.push(LineReads { line, terms: reads })?;
        if let Some(t) = own {
            self.own = Some(t);
        }
        self.leaves = leaves;
        Ok(())
    }

    // Goes on by a line.
    fn judge<M: LineJudge>(
        &mut self,
        machine: &M,
        template: Template<'_>,
        is_first: bool,
        line: &Line,
    ) -> Result<(), TargetFault>
        ensures { Goes result (progress_of self.new) (judged_run (M.meaning.did template.entry.setting template.entry.holes.now)
            is_first line.now self.old) }
    {
        match machine.line_did(
            template,
            is_first,
            &self.own,
            &self.leaves,
            line.pieces.as_slice(),
        ) {
            Ok(step) => Ok(self.go_on(line.line, step)?),
            Err(refusal) => Err(at_line(line.line, refusal)),
        }
    }
}

fn lines_judged<M: LineJudge>(
    machine: &M,
    template: Template<'_>,
    lines: &[Line],
) -> Result<Run, TargetFault>
    ensures { Answers progress_of result (lines_judged (M.meaning.did template.entry.setting template.entry.holes.now) true start
        lines.now) }
{
    let mut run = Run::start(template.alloc);
    let mut is_first = true;
    for line in lines {
        run.judge(machine, template, is_first, line)?;
        is_first = false;
    }
    Ok(run)
}

fn last_line(lines: &[Line]) -> u32
    ensures { result ≡ last_line lines.now }
{
    match lines.last() {
        Some(line) => line.line,
        None => 0,
    }
}

fn left_value(own: Option<Box<Term>>) -> Result<Act, Refusal>
    ensures { Judges act_of result (left_value (term_of own)) }
{
    match own {
        Some(t) => Ok(Act::Value(Box::into_inner(t))),
        None => Err(NOT_INSTR),
    }
}

fn last_deed(before: Before) -> Result<Act, Refusal>
    ensures { Judges act_of result (last_deed (last_of before)) }
{
    match before {
        Before::Ended(deed) => Ok(Box::into_inner(deed)),
        _ => Err(NOT_INSTR),
    }
}

// What a template did, by what it gives.
fn given_by<M: LineJudge>(
    machine: &M,
    template: Template<'_>,
    kind: Option<Kind>,
    own: Option<Box<Term>>,
    leaves: Before,
    give: &Give,
) -> Result<Act, Refusal>
    ensures { Judges act_of result (given_by (M.meaning.gives template.entry.setting template.entry.holes.now kind) (term_of own)
        (last_of leaves) give.now) }
{
    match give {
        Give::Fresh | Give::Reuse => left_value(own),
        Give::Scratch | Give::Nothing => last_deed(leaves),
        Give::Shape(shape) => machine.shape_given(template, kind, shape.pieces.as_slice()),
    }
}

fn given_line(lines: &[Line], give: &Give) -> u32
    ensures { result ≡ given_line lines.now give.now }
{
    match give {
        Give::Shape(shape) => shape.line,
        Give::Fresh | Give::Reuse | Give::Scratch | Give::Nothing => last_line(lines),
    }
}

// The effect of lines that left this; a fault of what is given belongs to this line.
#[tactic(auto, unfolding(crate::specs::Found::ended))]
fn ended<M: LineJudge>(
    machine: &M,
    template: Template<'_>,
    kind: Option<Kind>,
    line: u32,
    give: &Give,
    run: Run,
) -> Result<Effect, TargetFault>
    ensures { Answers effect_of result (ended (M.meaning.gives template.entry.setting template.entry.holes.now kind) line give.now
        (progress_of run)) }
{
    let Run {
        own,
        leaves,
        divisors,
        reads,
    } = run;
    match given_by(machine, template, kind, own, leaves, give) {
        Ok(act) => none_dropped(template.alloc, Effect { act, divisors }, &reads),
        Err(refusal) => Err(at_line(line, refusal)),
    }
}

/// The effect of a rule's template, or the first fault in it.
#[tactic(auto, unfolding(crate::specs::Found::found, crate::specs::Found::template_found))]
pub fn found<M: LineJudge>(
    alloc: Global,
    machine: &M,
    rule: &Rule,
    classes: &[Class],
) -> Result<Effect, TargetFault>
    ensures { Answers effect_of result (found M.meaning classes.now rule.now) }
{
    let holes = holes_of(alloc, classes, rule.right.as_slice())?;
    let template = Template {
        alloc,
        setting: setting_of(classes, rule),
        holes: &holes,
    };
    let lines = rule.lines.as_slice();
    let run = lines_judged(machine, template, lines)?;
    let line = given_line(lines, &rule.give);
    ended(
        machine,
        template,
        kind_at(classes, rule.left),
        line,
        &rule.give,
        run,
    )
}

fn saved_give(kind: Kind) -> Give
    ensures { result ≡ saved_give kind }
{
    if is_reload(kind) {
        Give::Fresh
    } else {
        Give::Nothing
    }
}

/// The effect of a line that saves what is of this kind, or, for a register, of a line that reloads one, or the fault in it.
#[tactic(auto, unfolding(crate::specs::Found::saved_found, crate::specs::Found::template_found))]
pub fn saved_found<M: LineJudge>(
    alloc: Global,
    machine: &M,
    kind: Kind,
    line: &Line,
) -> Result<Effect, TargetFault>
    ensures { Answers effect_of result (saved_found M.meaning kind line.now) }
{
    let template = Template {
        alloc,
        setting: saved_setting(kind),
        holes: &[saved_hole(kind)],
    };
    let mut run = Run::start(alloc);
    run.judge(machine, template, true, line)?;
    let give = saved_give(kind);
    ended(machine, template, None, line.line, &give, run)
}
