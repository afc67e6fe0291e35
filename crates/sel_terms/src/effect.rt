// Effects: what a rule's pattern or template does.

ghost use Rattle.std.specs.Prelude.{◌≡◌, ◌↔◌, IfOk, IsTrue, map};
ghost use Rattle.term_core.specs.Shape.{shape_of};
ghost use Rattle.term_core.specs.Norm.{norm};
ghost use Rattle.sel_terms.specs.Effects.{act_of, effect_of, norm_act, norm_effect};

use gg_base::{NoMemory, Size};
use std::alloc::Global;
use term_core::{Fact, Term, norm_under, same_as};

/// What a rule does: it gives a value, a number, an address or a place, stores a value, branches where the relation of the symbol with
/// this number holds of the two terms, pushes an argument, calls, saves the last call's result in the local of a symbol, returns, or
/// jumps. A place or a store is at home where it is the place of the symbol with this number, and otherwise at an address; home 0 is the
/// slot of a spill.
#[derive(Drop)]
pub enum Act {
    Value(Term),
    Number(Term),
    Address(Term),
    PlaceHome(Size, u8),
    PlaceAt(Size, Term),
    StoreHome(Size, u8, Term),
    StoreAt(Size, Term, Term),
    Branch(u8, Term, Term),
    Push(Term),
    Call,
    Save(u8),
    Return(Term),
    Jump,
}

/// What a rule does, and by what it divides: one divisor for each division, in order of evaluation.
#[derive(Drop)]
pub struct Effect {
    pub act: Act,
    pub divisors: Vec<Term>,
}

fn norm_act(alloc: Global, facts: &[Fact], act: &Act) -> Result<Act, NoMemory>
    ensures { IfOk result (λ r. act_of r ≡ norm_act facts.now (act_of act.now)) }
{
    Ok(match act {
        Act::Value(t) => Act::Value(norm_under(alloc, facts, t)?),
        Act::Number(t) => Act::Number(norm_under(alloc, facts, t)?),
        Act::Address(t) => Act::Address(norm_under(alloc, facts, t)?),
        Act::PlaceHome(size, i) => Act::PlaceHome(*size, same_as(facts, *i)),
        Act::PlaceAt(size, t) => Act::PlaceAt(*size, norm_under(alloc, facts, t)?),
        Act::StoreHome(size, i, t) => {
            let t = norm_under(alloc, facts, t)?;
            Act::StoreHome(*size, same_as(facts, *i), t)
        }
        Act::StoreAt(size, a, t) => {
            let a = norm_under(alloc, facts, a)?;
            Act::StoreAt(*size, a, norm_under(alloc, facts, t)?)
        }
        Act::Branch(i, a, b) => {
            let a = norm_under(alloc, facts, a)?;
            Act::Branch(*i, a, norm_under(alloc, facts, b)?)
        }
        Act::Push(t) => Act::Push(norm_under(alloc, facts, t)?),
        Act::Call => Act::Call,
        Act::Save(i) => Act::Save(*i),
        Act::Return(t) => Act::Return(norm_under(alloc, facts, t)?),
        Act::Jump => Act::Jump,
    })
}

fn norm_terms(alloc: Global, facts: &[Fact], terms: &[Term]) -> Result<Vec<Term>, NoMemory>
    ensures { IfOk result (λ v. map shape_of v.items ≡ map (norm facts.now) (map shape_of terms.now)) }
{
    let mut normal = Vec::new(alloc);
    for t in terms {
        normal.push(norm_under(alloc, facts, t)?)?;
    }
    Ok(normal)
}

/// The normal form of an effect of whose symbols these facts are known: each of its terms in normal form, and each home the least symbol's
/// that is spelled alike.
pub fn norm_effect(alloc: Global, facts: &[Fact], effect: &Effect) -> Result<Effect, NoMemory>
    ensures { IfOk result (λ r. effect_of r ≡ norm_effect facts.now (effect_of effect.now)) }
{
    let act = norm_act(alloc, facts, &effect.act)?;
    let divisors = norm_terms(alloc, facts, &effect.divisors)?;
    Ok(Effect { act, divisors })
}
