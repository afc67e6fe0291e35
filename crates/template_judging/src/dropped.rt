// Whether a term stands in an effect, and the first line whose reading of memory stands in none.
ghost use Rattle.std.specs.Prelude.{◌≡◌, ◌||◌, IfOk, map};
ghost use Rattle.std.specs.List.{list_any, list_all};
ghost use Rattle.term_core.specs.Shape.{shape_of};
ghost use Rattle.term_core.specs.Form.{shape_of_form};
ghost use Rattle.sel_terms.specs.Effects.{act_of, effect_of};
ghost use Rattle.vax_templates.specs.Dropped.{contains, parts_contain, act_contains, effect_contains, first_dropped};
ghost use Rattle.vax_templates.specs.Dropped.{none_dropped};
ghost use Rattle.template_judging.specs.Answers.{Answers};
ghost use Rattle.template_judging.specs.Views.{reads_of};

use gg_base::NoMemory;
use sel_target::{TargetFault, TemplateKind};
use sel_terms::{Act, Effect};
use std::alloc::Global;
use term_core::{Form as TermForm, Term, form_of, same_term};

/// What a line reads of memory.
#[derive(Drop)]
pub struct LineReads {
    pub line: u32,
    pub terms: Vec<Term>,
}

// Whether a term stands in another.
#[tactic(auto, using(crate::proofs::Containing::contains_is))]
#[cycle(contains)]
fn contains(alloc: Global, part: &Term, whole: &Term) -> Result<bool, NoMemory>
    ensures { IfOk result (λ b. b ≡ contains (shape_of part.now) (shape_of whole.now)) }
{
    if same_term(alloc, part, whole)? {
        return Ok(true);
    }
    parts_contain(alloc, part, form_of(whole))
}

#[cycle(contains)]
fn parts_contain(alloc: Global, part: &Term, whole: TermForm<'_>) -> Result<bool, NoMemory>
    ensures { IfOk result (λ b. b ≡ parts_contain (shape_of part.now) (shape_of_form whole.entry)) }
{
    match whole {
        TermForm::Constant(_) | TermForm::Symbol(_) | TermForm::LastResult => Ok(false),
        TermForm::Memory(_, a) => contains(alloc, part, a),
        TermForm::Unary(_, t) => contains(alloc, part, t),
        TermForm::Binary(_, a, b) => {
            if contains(alloc, part, a)? {
                return Ok(true);
            }
            contains(alloc, part, b)
        }
    }
}

fn one_contains(alloc: Global, part: &Term, a: &Term, b: &Term) -> Result<bool, NoMemory>
    ensures { IfOk result (λ r. r ≡ (contains (shape_of part.now) (shape_of a.now) || contains (shape_of part.now) (shape_of b.now))) }
{
    if contains(alloc, part, a)? {
        return Ok(true);
    }
    contains(alloc, part, b)
}

fn act_contains(alloc: Global, act: &Act, part: &Term) -> Result<bool, NoMemory>
    ensures { IfOk result (λ b. b ≡ act_contains (act_of act.now) (shape_of part.now)) }
{
    match act {
        Act::Value(t) => contains(alloc, part, t),
        Act::Number(t) => contains(alloc, part, t),
        Act::Address(t) => contains(alloc, part, t),
        Act::PlaceHome(_, _) => Ok(false),
        Act::PlaceAt(_, a) => contains(alloc, part, a),
        Act::StoreHome(_, _, t) => contains(alloc, part, t),
        Act::StoreAt(_, a, t) => one_contains(alloc, part, a, t),
        Act::Branch(_, a, b) => one_contains(alloc, part, a, b),
        Act::Push(t) => contains(alloc, part, t),
        Act::Return(t) => contains(alloc, part, t),
        Act::Call | Act::Save(_) | Act::Jump => Ok(false),
    }
}

fn any_contains(alloc: Global, part: &Term, terms: &[Term]) -> Result<bool, NoMemory>
    ensures { IfOk result (λ b. b ≡ list_any (contains (shape_of part.now)) (map shape_of terms.now)) }
{
    for t in terms {
        if contains(alloc, part, t)? {
            return Ok(true);
        }
    }
    Ok(false)
}

fn effect_contains(alloc: Global, effect: &Effect, part: &Term) -> Result<bool, NoMemory>
    ensures { IfOk result (λ b. b ≡ effect_contains (effect_of effect.now) (shape_of part.now)) }
{
    if act_contains(alloc, &effect.act, part)? {
        return Ok(true);
    }
    any_contains(alloc, part, &effect.divisors)
}

fn all_stand(alloc: Global, effect: &Effect, reads: &[Term]) -> Result<bool, NoMemory>
    ensures { IfOk result (λ b. b ≡ list_all (effect_contains (effect_of effect.now)) (map shape_of reads.now)) }
{
    for t in reads {
        if !effect_contains(alloc, effect, t)? {
            return Ok(false);
        }
    }
    Ok(true)
}

// The first line that reads memory, or the value of a place, and drops it.
fn first_dropped(
    alloc: Global,
    effect: &Effect,
    reads: &[LineReads],
) -> Result<Option<u32>, NoMemory>
    ensures { IfOk result (λ o. o ≡ first_dropped (effect_of effect.now) (map reads_of reads.now)) }
{
    for read in reads {
        if !all_stand(alloc, effect, &read.terms)? {
            return Ok(Some(read.line));
        }
    }
    Ok(None)
}

/// The effect, if no line drops what it read; else the fault of the first that does.
pub fn none_dropped(
    alloc: Global,
    effect: Effect,
    reads: &[LineReads],
) -> Result<Effect, TargetFault>
    ensures { Answers effect_of result (none_dropped (effect_of effect) (first_dropped (effect_of effect) (map reads_of reads.now))) }
{
    let effect = Box::new(alloc, effect)?;
    match first_dropped(alloc, &effect, reads)? {
        None => Ok(Box::into_inner(effect)),
        Some(line) => Err(TargetFault::At {
            line,
            kind: TemplateKind::NotInstr,
        }),
    }
}
