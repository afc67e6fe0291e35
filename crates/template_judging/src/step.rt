// What a line does, as the parts that any machine's lines have.
ghost use Rattle.std.specs.Prelude.{◌≡◌, IfOk, Ok, map, ◌∷◌, []};
ghost use Rattle.term_core.specs.Shape.{shape_of};
ghost use Rattle.sel_terms.specs.Effects.{act_of};
ghost use Rattle.sel_terms.specs.Effects as act;
ghost use Rattle.vax_templates.specs.Deeds.{leaves, ends, is_relation, is_last_result, puts};
ghost use Rattle.vax_templates.specs.Judging.{is_operand, in_order};
ghost use Rattle.vax_target_taking.specs.Answers.{Judges};
ghost use Rattle.template_judging.specs.Views.{last_of, deed_of};

use gg_base::{NoMemory, Size};
use sel_target::TemplateKind;
use sel_terms::Act;
use std::alloc::Global;
use term_core::Term;
use vax_target_forms::refusal::Refusal;
use vax_target_taking::taking::Operands;
use vax_templates::Hole;

/// What a line leaves to the next: nothing, two numbers that were compared, one that was tested, a value in register 0, or the deed that
/// ends the template.
#[derive(Drop)]
pub enum Before {
    Plain,
    Compared(Box<Term>, Box<Term>),
    Tested(Box<Term>),
    Returning(Box<Term>),
    Ended(Box<Act>),
}

/// What a line puts into `%0`, what it leaves to the next, by what it divides, what it reads of memory, and whether an operand has another
/// size.
#[derive(Drop)]
pub struct Step {
    pub own: Option<Box<Term>>,
    pub leaves: Before,
    pub divisors: Vec<Term>,
    pub reads: Vec<Term>,
    pub is_missized: bool,
}

/// A line that only leaves this to the next.
pub fn leaves(alloc: Global, before: Before) -> Step
    ensures { deed_of result ≡ leaves (last_of before) }
{
    Step {
        own: None,
        leaves: before,
        divisors: Vec::new(alloc),
        reads: Vec::new(alloc),
        is_missized: false,
    }
}

/// A line that ends the template with a deed.
pub fn ends(alloc: Global, deed: Act) -> Result<Step, NoMemory>
    ensures { IfOk result (λ d. ends (act_of deed) ≡ Ok (deed_of d)) }
{
    let deed = Box::new(alloc, deed)?;
    Ok(leaves(alloc, Before::Ended(deed)))
}

/// The first operand is pushed.
pub fn pushes(alloc: Global, arguments: Operands) -> Result<Step, NoMemory>
    ensures { IfOk result (λ d. ends (act.Push (shape_of arguments.first.value)) ≡ Ok (deed_of d)) }
{
    ends(alloc, Act::Push(Box::into_inner(arguments.first)))
}

/// A line that stores to a symbol's home, or to the slot, which is that of 0.
pub fn stores_home(alloc: Global, size: Size, i: u8, t: Box<Term>) -> Result<Step, NoMemory>
    ensures { IfOk result (λ d. ends (act.StoreHome size i (shape_of t.value)) ≡ Ok (deed_of d)) }
{
    ends(alloc, Act::StoreHome(size, i, Box::into_inner(t)))
}

/// A line that stores at an address.
pub fn stores_at(alloc: Global, size: Size, a: Box<Term>, t: Box<Term>) -> Result<Step, NoMemory>
    ensures { IfOk result (λ d. ends (act.StoreAt size (shape_of a.value) (shape_of t.value)) ≡ Ok (deed_of d)) }
{
    let deed = Act::StoreAt(size, Box::into_inner(a), Box::into_inner(t));
    ends(alloc, deed)
}

/// A line that puts a term into `%0`.
pub fn puts(alloc: Global, t: Box<Term>) -> Step
    ensures { deed_of result ≡ puts (shape_of t.value) }
{
    Step {
        own: Some(t),
        leaves: Before::Plain,
        divisors: Vec::new(alloc),
        reads: Vec::new(alloc),
        is_missized: false,
    }
}

/// Whether a hole is a branch's relation.
pub fn is_relation(hole: Hole) -> bool
    ensures { result ≡ is_relation hole }
{
    matches!(hole, Hole::Relation)
}

/// Whether a term is the last call's result.
pub fn is_last_result(t: &Term) -> bool
    ensures { result ≡ is_last_result (shape_of t.now) }
{
    matches!(t, Term::Res)
}

/// The one term as a list.
pub fn only(alloc: Global, t: Box<Term>) -> Result<Vec<Term>, NoMemory>
    ensures { IfOk result (λ v. map shape_of v.items ≡ shape_of t.value ∷ []) }
{
    let mut terms = Vec::new(alloc);
    terms.push(Box::into_inner(t))?;
    Ok(terms)
}

/// The step, which divides by these.
pub fn with_divisors(step: Step, divisors: Vec<Term>) -> Step
    ensures { deed_of result ≡ record (deed_of step) { divisors = map shape_of divisors.items } }
{
    Step { divisors, ..step }
}

/// The step, if no operand has another size and it does not come in disorder.
pub fn in_order(disordered: bool, step: Step) -> Result<Step, Refusal>
    ensures { Judges deed_of result (in_order disordered (deed_of step)) }
{
    if step.is_missized {
        Err(Refusal::Wrong(TemplateKind::WrongSize))
    } else if disordered {
        Err(Refusal::Wrong(TemplateKind::Order))
    } else {
        Ok(step)
    }
}

/// Whether a hole is an operand, which is read where it is spelled.
pub fn is_operand(hole: Hole) -> bool
    ensures { result ≡ is_operand hole }
{
    match hole {
        Hole::Register => true,
        Hole::Value(_) => true,
        Hole::Place(_) => true,
        Hole::Local => true,
        Hole::SavedPlace(_) => true,
        Hole::Address => true,
        _ => false,
    }
}
