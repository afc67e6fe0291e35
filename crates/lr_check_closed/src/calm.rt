// The tokens behind with which reductions of a class alone come to an end.
ghost use Rattle.std.specs.Prelude.{◌≡◌, [], ◌∷◌, IsTrue, IfOk, OnOk, Contains};
ghost use Rattle.tree_core.specs.declared.token.Tok.{Tok};
ghost use Rattle.md_reader.specs.declared.types.Sym.TheVariants as grammar_symbol;
ghost use Rattle.lr_check_found.specs.lr_check_sets.specs.Faults.{Calms};
ghost use Rattle.lr_check_ways.specs.Sets.{In};
ghost use Rattle.lr_check_ways.specs.declared.ways.Reduction.{Reduction};
ghost use Rattle.lr_check_closed.specs.Looks.{automaton, IsSound};
ghost use Rattle.lr_check_closed.specs.Fine.{calm_of, AreCalm, IsCalmAt, Settles};

use crate::look::Look;
use gg_base::NoMemory;
use lr_check_ways::{Reduction, Ways, both, is_within};
use lr_tables::State;
use md_reader::Sym;
use std::alloc::Global;

/// For each class the tokens behind with which it is calm in the state.
#[derive(Drop)]
pub(crate) struct CalmAt {
    pub state: State,
    pub sets: Vec<u64>,
}

fn calm_of(calm: &[u64], class: u16) -> u64
    ensures { result ≡ calm_of calm.now class }
{
    calm.get(class as usize).copied().unwrap_or(0)
}

// Whether the reduction of a list of so many symbols, with a token of the set next, leads to a calm class.
fn settles(reduction: &Reduction, size: usize, set: u64, calm: &[u64]) -> bool
    ensures { IsTrue result → Settles calm.now size set reduction.now }
{
    if reduction.long != size {
        return true;
    }
    is_within(both(set, reduction.tokens), calm_of(calm, reduction.class))
}

/// Whether it is so of each of the reductions.
pub(crate) fn all_settle(reductions: &[Reduction], size: usize, set: u64, calm: &[u64]) -> bool
    ensures { IsTrue result → (x : Reduction) → Contains reductions.now x → Settles calm.now size set x }
{
    reductions
        .iter()
        .all(|reduction| settles(reduction, size, set, calm))
}

// The tokens with which each reduction of a class alone leads to a calm class; that it does is looked at behind this.
fn leading_to_calm(ways: &Ways, calm: &[u64]) -> u64 {
    let mut set = u64::MAX;
    for reduction in ways.reductions.iter() {
        if reduction.long == 1 {
            set &= !reduction.tokens | calm_of(calm, reduction.class);
        }
    }
    set
}

impl<'a> Look<'a> {
    // The tokens with which the class is calm, as far as the calm ones show.
    fn calm_by(&self, state: State, class: u16, calm: &[u64]) -> u64
        requires { IsSound self.now }
        ensures { AreCalm (automaton self.now) state calm.now → (b : Tok) → In result b
            → Calms (automaton self.now) state b (grammar_symbol.Class class ∷ []) }
    {
        let over = match self.tables.over(state, Sym::Class(class)) {
            Some(over) => over,
            None => return u64::MAX,
        };
        let ways = match self.ways_at(over) {
            Some(ways) => ways,
            None => return 0,
        };
        let set = leading_to_calm(ways, calm);
        if all_settle(&ways.reductions, 1, set, calm) {
            set
        } else {
            0
        }
    }

    // Puts what is calm of the class, as the sets show; whether that is new.
    fn calm_class(&self, state: State, calm: &mut [u64], class: u16) -> bool
        requires { IsSound self.now }
        ensures { AreCalm (automaton self.now) state calm.old → AreCalm (automaton self.now) state calm.new }
    {
        let at = class as usize;
        if at >= calm.len() {
            return false;
        }
        let set = self.calm_by(state, class, calm);
        let is_new = calm[at] != set;
        calm[at] = set;
        is_new
    }

    // The same of each class.
    fn calm_round(&self, state: State, calm: &mut [u64]) -> bool
        requires { IsSound self.now }
        ensures { AreCalm (automaton self.now) state calm.old → AreCalm (automaton self.now) state calm.new }
    {
        let mut changed = false;
        for class in 0..u16::try_from(calm.len()).unwrap_or(u16::MAX) {
            if self.calm_class(state, calm, class) {
                changed = true;
            }
        }
        changed
    }

    // For each class the tokens with which it is calm in the state.
    fn calm_at(&self, alloc: Global, state: State) -> Result<Vec<u64>, NoMemory>
        requires { IsSound self.now }
        ensures { IfOk result (λ c. AreCalm (automaton self.now) state c.items) }
    {
        let count = self.tables.description().classes().len();
        let mut calm = vec![in alloc; 0; count]?;
        for _round in 0..count + 1 {
            if !self.calm_round(state, &mut calm) {
                return Ok(calm);
            }
        }
        Ok(calm)
    }

    /// What is held is of the state from now on.
    pub(crate) fn hold(
        &self,
        alloc: Global,
        state: State,
        held: &mut CalmAt,
    ) -> Result<(), NoMemory>
        requires sound { IsSound self.now }
        requires held { IsCalmAt (automaton self.now) held.old }
        ensures state { OnOk result (held.new.state ≡ state) }
        ensures calm { OnOk result (IsCalmAt (automaton self.now) held.new) }
    {
        if held.sets.len() != 0 && held.state.number() == state.number() {
            return Ok(());
        }
        held.sets = self.calm_at(alloc, state)?;
        held.state = state;
        Ok(())
    }
}
