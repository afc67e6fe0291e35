// What a line of a template does, and what is wrong with it.
ghost use Rattle.std.specs.Prelude.{◌≡◌, Some};
ghost use Rattle.std.specs.List.{list_any};
ghost use Rattle.std.specs.Option.{option_map};
ghost use Rattle.term_core.specs.Shape.{shape_of};
ghost use Rattle.vax_templates.specs.Giving.{Divides};
ghost use Rattle.l32_templates.specs.Giving.{given};
ghost use Rattle.l32_templates.specs.Deeds.{is_lw, put, computed, acted};
ghost use Rattle.l32_templates.specs.Judging.{spells_symbol, is_disordered, operated, branches, instruction_did};
ghost use Rattle.l32_templates.specs.Judging.{is_ret, returned, line_did};
ghost use Rattle.vax_target_taking.specs.Answers.{Judges};
ghost use Rattle.vax_target_taking.specs.Views.{term_of, target_of, arguments_of};
ghost use Rattle.l32_target_forms.specs.Views.{instruction_view};
ghost use Rattle.template_judging.specs.Stages.{line_after};
ghost use Rattle.template_judging.specs.Views.{given_of, deed_of};

use crate::giving::given;
use gg_base::NoMemory;
use l32_core::Op32;
use l32_machine::function::{Action, Function, action_of};
use l32_target_forms::instruction::{LineInstruction, instruction_of};
use l32_target_taking::taking::all_evaluated;
use l32_templates::Form;
use md_reader::Piece;
use sel_terms::Act;
use std::alloc::Global;
use template_judging::outcome::Outcome;
use template_judging::step::{
    Before, Step, ends, in_order, is_last_result, is_operand, is_relation, leaves, only, pushes,
    puts, stores_at, stores_home, with_divisors,
};
use term_core::{Term, copy};
use vax_target_forms::refusal::{NOT_INSTR, Refusal};
use vax_target_taking::setting::hole_at;
use vax_target_taking::standing::Template;
use vax_target_taking::taking::{Destination, Operands};

fn is_lw(op: Op32) -> bool
    ensures { result ≡ is_lw op }
{
    matches!(op, Op32::Lw)
}

// A result at its destination.
fn put(alloc: Global, op: Op32, to: Destination, t: Box<Term>) -> Result<Step, Refusal>
    ensures { Judges deed_of result (put op (Some (target_of to)) (shape_of t.value)) }
{
    match to {
        Destination::Own => Ok(puts(alloc, t)),
        Destination::Slot(size) => Ok(stores_home(alloc, size, 0, t)?),
        Destination::Home(size, i) => Ok(stores_home(alloc, size, i, t)?),
        Destination::Memory(size, a) => Ok(stores_at(alloc, size, a, t)?),
        Destination::RegisterZero if is_lw(op) => Ok(leaves(alloc, Before::Returning(t))),
        Destination::Saved(i) if is_last_result(&t) => { Ok(ends(alloc, Act::Save(i))?) }
        Destination::RegisterZero | Destination::Saved(_) => Err(NOT_INSTR),
    }
}

fn put_at(alloc: Global, op: Op32, to: Option<Destination>, t: Box<Term>) -> Result<Step, Refusal>
    ensures { Judges deed_of result (put op (option_map target_of to) (shape_of t.value)) }
{
    match to {
        Some(to) => put(alloc, op, to, t),
        None => Err(NOT_INSTR),
    }
}

// A quotient by this divisor, at its destination.
fn put_divided(
    alloc: Global,
    op: Op32,
    to: Option<Destination>,
    t: Box<Term>,
    divisor: Box<Term>,
) -> Result<Step, Refusal>
    ensures { Judges deed_of result (computed op (option_map target_of to) (Divides (shape_of t.value) (shape_of divisor.value))) }
{
    let step = put_at(alloc, op, to, t)?;
    let divisors = only(alloc, divisor)?;
    Ok(with_divisors(step, divisors))
}

fn computed(
    alloc: Global,
    op: Op32,
    to: Option<Destination>,
    outcome: Outcome,
) -> Result<Step, Refusal>
    ensures { Judges deed_of result (computed op (option_map target_of to) (given_of outcome)) }
{
    match outcome {
        Outcome::Computes(t) => put_at(alloc, op, to, t),
        Outcome::Divides(t, divisor) => put_divided(alloc, op, to, t, divisor),
        Outcome::Compares(_, _) | Outcome::Tests(_) => Err(NOT_INSTR),
    }
}

fn is_ret(op: Op32) -> bool
    ensures { result ≡ is_ret op }
{
    matches!(op, Op32::Ret)
}

// Behind a value in `a0` stands a return.
fn returned(alloc: Global, t: &Term, instruction: &LineInstruction) -> Result<Step, Refusal>
    ensures { Judges deed_of result (returned (shape_of t.now) (instruction_view instruction.now)) }
{
    match instruction {
        LineInstruction::Operates(op, _) if is_ret(*op) => {
            let t = copy(alloc, t)?;
            Ok(ends(alloc, Act::Return(t))?)
        }
        _ => Err(NOT_INSTR),
    }
}

// Whether an operand is read of a symbol.
fn spells_symbol(template: Template<'_>, form: &Form) -> bool
    ensures { result ≡ spells_symbol template.entry.holes.now form.now }
{
    match form {
        Form::Hole(i) => is_operand(hole_at(template.holes, *i)),
        Form::Displacement(_, i) => is_operand(hole_at(template.holes, *i)),
        Form::DisplacementDeferred(_, i) => is_operand(hole_at(template.holes, *i)),
        Form::Deferred(i) => is_operand(hole_at(template.holes, *i)),
        Form::RegisterZero | Form::Immediate(_) | Form::Negative(_) => false,
    }
}

// Whether one of the operands is read of a symbol.
fn spell_symbols(template: Template<'_>, forms: &[Form]) -> bool
    ensures { result ≡ list_any (spells_symbol template.entry.holes.now) forms.now }
{
    forms.iter().any(|form| spells_symbol(template, form))
}

// What an instruction computes, at its destination.
fn applied(
    template: Template<'_>,
    function: Function,
    op: Op32,
    arguments: Operands,
) -> Result<Step, Refusal>
    ensures { Judges deed_of result (computed op (option_map target_of arguments.destination)
        (given function (shape_of arguments.first.value) (shape_of arguments.second.value))) }
{
    let Operands {
        first,
        second,
        destination,
        ..
    } = arguments;
    match given(template.alloc, function, &first, &second) {
        Ok(outcome) => computed(template.alloc, op, destination, outcome),
        Err(NoMemory) => Err(Refusal::NoMemory),
    }
}

fn acted(
    template: Template<'_>,
    action: Action,
    op: Op32,
    arguments: Operands,
) -> Result<Step, Refusal>
    ensures { Judges deed_of result (acted template.entry.setting action op (arguments_of arguments)) }
{
    match action {
        Action::Compute(function) => applied(template, function, op, arguments),
        Action::Push if template.setting.is_statement => Ok(pushes(template.alloc, arguments)?),
        Action::Jump if template.setting.is_statement => Ok(ends(template.alloc, Act::Jump)?),
        Action::Push
        | Action::Jump
        | Action::Branch(_)
        | Action::Enter
        | Action::Call
        | Action::Return => Err(NOT_INSTR),
    }
}

fn is_disordered(
    template: Template<'_>,
    is_first: bool,
    zero: &Option<Box<Term>>,
    forms: &[Form],
    step: &Step,
) -> bool
    ensures { result ≡ is_disordered template.entry.setting template.entry.holes.now is_first (term_of zero.now) forms.now
        (deed_of step.now) }
{
    (!is_first && !step.divisors.is_empty())
        || (template.setting.is_reused && zero.is_some() && spell_symbols(template, forms))
}

#[tactic(auto, unfolding(l32_templates::specs::Judging::operated))]
fn operated(
    template: Template<'_>,
    is_first: bool,
    zero: &Option<Box<Term>>,
    op: Op32,
    forms: &[Form],
) -> Result<Step, Refusal>
    ensures { Judges deed_of result (operated template.entry.setting template.entry.holes.now is_first (term_of zero.now) op forms.now) }
{
    let mut arguments = all_evaluated(template, zero, op.shape().parts, forms)?;
    let is_missized = arguments.is_missized;
    let reads = std::mem::replace(&mut arguments.reads, Vec::new(template.alloc));
    match acted(template, action_of(op), op, arguments) {
        Ok(mut step) => {
            step.reads = reads;
            step.is_missized = is_missized;
            in_order(is_disordered(template, is_first, zero, forms, &step), step)
        }
        Err(refusal) => Err(refusal),
    }
}

// A branch that compares two registers by the relation of the symbol with this number.
#[tactic(auto, unfolding(l32_templates::specs::Judging::branches))]
fn branches(
    template: Template<'_>,
    zero: &Option<Box<Term>>,
    i: u8,
    forms: &[Form],
) -> Result<Step, Refusal>
    ensures { Judges deed_of result (branches template.entry.setting template.entry.holes.now (term_of zero.now) i forms.now) }
{
    let arguments = all_evaluated(template, zero, Op32::Beq.shape().parts, forms)?;
    if !template.setting.is_statement {
        return Err(NOT_INSTR);
    }
    let a = Box::into_inner(arguments.first);
    let b = Box::into_inner(arguments.second);
    Ok(ends(template.alloc, Act::Branch(i, a, b))?)
}

fn instruction_did(
    template: Template<'_>,
    is_first: bool,
    zero: &Option<Box<Term>>,
    instruction: &LineInstruction,
) -> Result<Step, Refusal>
    ensures { Judges deed_of result (instruction_did template.entry.setting template.entry.holes.now is_first (term_of zero.now)
        (instruction_view instruction.now)) }
{
    match instruction {
        LineInstruction::Relation(i, forms) if is_relation(hole_at(template.holes, *i)) => {
            branches(template, zero, *i, forms)
        }
        LineInstruction::Call if template.setting.is_statement => Ok(ends(
            template.alloc,
            Act::Call,
        )?),
        LineInstruction::Operates(op, forms) => operated(template, is_first, zero, *op, forms),
        LineInstruction::Relation(_, _) | LineInstruction::Call => Err(NOT_INSTR),
    }
}

/// What a line does, where `%0` holds this and the line before left that.
#[tactic(auto, unfolding(l32_templates::specs::Judging::line_did))]
pub fn line_did(
    template: Template<'_>,
    is_first: bool,
    zero: &Option<Box<Term>>,
    before: &Before,
    pieces: &[Piece],
) -> Result<Step, Refusal>
    ensures { Judges deed_of result (line_after (line_did template.entry.setting template.entry.holes.now) is_first zero.now before.now
        pieces.now) }
{
    let instruction = instruction_of(template.alloc, pieces)?;
    match before {
        Before::Ended(_) => Err(NOT_INSTR),
        Before::Returning(t) => returned(template.alloc, t, &instruction),
        _ => instruction_did(template, is_first, zero, &instruction),
    }
}
