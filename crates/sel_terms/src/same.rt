// When two effects are the same.

ghost use Rattle.std.specs.Prelude.{◌≡◌, ◌↔◌, ◌&&◌, IsTrue, IfOk, map};
ghost use Rattle.term_core.specs.Shape.{shape_of};
ghost use Rattle.sel_terms.specs.Effects.{act_of, effect_of};
ghost use Rattle.term_core.specs.Order.{same_term};
ghost use Rattle.sel_terms.specs.Same.{same_size, same_act, same_terms, same_effect};

use crate::effect::{Act, Effect};
use gg_base::{NoMemory, Size};
use std::alloc::Global;
use term_core::{Term, same_term};

/// Whether the sizes are the same.
pub fn same_size(a: Size, b: Size) -> bool
    ensures { result ≡ same_size a b }
{
    a.bytes() == b.bytes()
}

// Two pairs of terms, one after the other.
fn same_pair(alloc: Global, p: &Term, q: &Term, s: &Term, t: &Term) -> Result<bool, NoMemory>
    ensures { IfOk result (λ r. r ≡ (same_term (shape_of p.now) (shape_of q.now) && same_term (shape_of s.now) (shape_of t.now))) }
{
    if !same_term(alloc, p, q)? {
        return Ok(false);
    }
    same_term(alloc, s, t)
}

fn same_act(alloc: Global, a: &Act, b: &Act) -> Result<bool, NoMemory>
    ensures { IfOk result (λ r. r ≡ same_act (act_of a.now) (act_of b.now)) }
{
    match (a, b) {
        (Act::Value(s), Act::Value(t)) => same_term(alloc, s, t),
        (Act::Number(s), Act::Number(t)) => same_term(alloc, s, t),
        (Act::Address(s), Act::Address(t)) => same_term(alloc, s, t),
        (Act::PlaceHome(z, i), Act::PlaceHome(y, j)) => Ok(same_size(*z, *y) && *i == *j),
        (Act::PlaceAt(z, s), Act::PlaceAt(y, t)) if same_size(*z, *y) => { same_term(alloc, s, t) }
        (Act::StoreHome(z, i, s), Act::StoreHome(y, j, t)) if same_size(*z, *y) && *i == *j => {
            same_term(alloc, s, t)
        }
        (Act::StoreAt(z, p, s), Act::StoreAt(y, q, t)) if same_size(*z, *y) => {
            same_pair(alloc, p, q, s, t)
        }
        (Act::Branch(i, p, s), Act::Branch(j, q, t)) if *i == *j => same_pair(alloc, p, q, s, t),
        (Act::Push(s), Act::Push(t)) => same_term(alloc, s, t),
        (Act::Call, Act::Call) => Ok(true),
        (Act::Save(i), Act::Save(j)) => Ok(*i == *j),
        (Act::Return(s), Act::Return(t)) => same_term(alloc, s, t),
        (Act::Jump, Act::Jump) => Ok(true),
        _ => Ok(false),
    }
}

fn same_terms(alloc: Global, a: &[Term], b: &[Term]) -> Result<bool, NoMemory>
    ensures { IfOk result (λ r. r ≡ same_terms (map shape_of a.now) (map shape_of b.now)) }
{
    match (a.split_first(), b.split_first()) {
        (None, None) => Ok(true),
        (Some((s, a)), Some((t, b))) => {
            if !same_term(alloc, s, t)? {
                return Ok(false);
            }
            same_terms(alloc, a, b)
        }
        _ => Ok(false),
    }
}

fn have_same_parts(alloc: Global, a: &Effect, b: &Effect) -> Result<bool, NoMemory>
    ensures { IfOk result (λ r. r ≡ same_effect (effect_of a.now) (effect_of b.now)) }
{
    if !same_act(alloc, &a.act, &b.act)? {
        return Ok(false);
    }
    same_terms(alloc, &a.divisors, &b.divisors)
}

/// Whether the two effects are the same.
pub fn same_effect(alloc: Global, a: &Effect, b: &Effect) -> Result<bool, NoMemory>
    ensures { IfOk result (λ r. IsTrue r ↔ (effect_of a.now ≡ effect_of b.now)) }
{
    have_same_parts(alloc, a, b)
}
