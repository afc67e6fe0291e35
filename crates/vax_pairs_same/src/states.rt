// Registers on terms of which the same is known, and facts that hold.
ghost use Rattle.std.specs.Prelude.{◌≡◌, ◌<◌, ◌≤◌, map, OnOk, IsTrue};
ghost use Rattle.term_core.specs.Shape.{Constant};
ghost use Rattle.vax_core.specs.Registers.{reg_number};
ghost use Rattle.vax_pairs.specs.Facts.{Outlasts};
ghost use Rattle.vax_pairs.specs.SameTrees.{Agree};
ghost use Rattle.vax_pairs.specs.TermStates.{term_at};
ghost use Rattle.vax_pairs_walk.specs.Views.{state_of};
ghost use Rattle.vax_pairs_cuts.specs.Views.{fact_of};
ghost use Rattle.vax_pairs_same.specs.Parts.{SameControl, HoldsOn, AllHold, IsSameResult, Lasts, AllLast};

use crate::doubt::Doubt;
use crate::terms::agree;
use std::alloc::Global;
use term_core::Term;
use vax_core::Reg;
use vax_pairs_cuts::fact::Fact;
use vax_pairs_walk::state::State;

// Register q of the second state is register r of the first.
fn same_register(alloc: Global, s: &State, r: Reg, t: &State, q: Reg) -> Result<(), Doubt>
    ensures { OnOk result (Agree (term_at (state_of t.now) (reg_number q)) (term_at (state_of s.now) (reg_number r))) }
{
    match (t.registers.get(q.number()), s.registers.get(r.number())) {
        (Some(a), Some(b)) => agree(alloc, a, b),
        _ => Err(Doubt::NotShown),
    }
}

// A register has this number.
fn has_number(alloc: Global, s: &State, r: Reg, v: u32) -> Result<(), Doubt>
    ensures { OnOk result (Agree (term_at (state_of s.now) (reg_number r)) (Constant v)) }
{
    match s.registers.get(r.number()) {
        Some(a) => agree(alloc, a, &Term::K(v)),
        None => Err(Doubt::NotShown),
    }
}

/// Both states have fifteen registers, and the same ap, fp and sp.
pub fn same_control(alloc: Global, s: &State, t: &State) -> Result<(), Doubt>
    ensures { OnOk result (SameControl (state_of s.now) (state_of t.now)) }
{
    if s.registers.len() != 15 || t.registers.len() != 15 {
        return Err(Doubt::NotShown);
    }
    same_register(alloc, s, Reg::Ap, t, Reg::Ap)?;
    same_register(alloc, s, Reg::Fp, t, Reg::Fp)?;
    same_register(alloc, s, Reg::Sp, t, Reg::Sp)?;
    Ok(())
}

/// Both states have the same r0.
pub fn same_result(alloc: Global, s: &State, t: &State) -> Result<(), Doubt>
    ensures { OnOk result (Agree (term_at (state_of t.now) 0) (term_at (state_of s.now) 0)) }
{
    same_register(alloc, s, Reg::R0, t, Reg::R0)
}

// The fact, of r0 to r11, holds of the two states.
fn fact_holds(alloc: Global, fact: &Fact, s: &State, t: &State) -> Result<(), Doubt>
    ensures { OnOk result (HoldsOn (fact_of fact.now) (state_of s.now) (state_of t.now)) }
{
    if !fact.is_named() {
        return Err(Doubt::NotShown);
    }
    match *fact {
        Fact::Equal { second, first } => same_register(alloc, s, first, t, second),
        Fact::First(r, v) => has_number(alloc, s, r, v),
        Fact::Second(r, v) => has_number(alloc, t, r, v),
    }
}

/// All these facts hold of the two states.
pub fn facts_hold(alloc: Global, facts: &[Fact], s: &State, t: &State) -> Result<(), Doubt>
    ensures { OnOk result (AllHold (map fact_of facts.now) (state_of s.now) (state_of t.now)) }
{
    match facts {
        [] => Ok(()),
        [fact, facts @ ..] => {
            fact_holds(alloc, fact, s, t)?;
            facts_hold(alloc, facts, s, t)?;
            Ok(())
        }
    }
}

// Whether it is one of r2 to r11, which a call keeps.
fn is_kept(r: Reg) -> bool
    ensures { IsTrue result → (2 ≤ reg_number r) × (reg_number r < 12) }
{
    2 <= r.number() && r.number() < 12
}

fn is_result(r: Reg) -> bool
    ensures { IsTrue result → reg_number r ≡ 0 }
{
    r.number() == 0
}

// Whether the fact holds behind calls where it holds in front of them.
fn outlasts(fact: &Fact) -> bool
    ensures { IsTrue result → Outlasts (fact_of fact.now) }
{
    match *fact {
        Fact::Equal { second, first } => {
            (is_kept(second) && is_kept(first)) || (is_result(second) && is_result(first))
        }
        Fact::First(r, _) | Fact::Second(r, _) => is_kept(r),
    }
}

// Whether it says that both machines have the same r0.
fn is_same_result(fact: &Fact) -> bool
    ensures { IsTrue result → IsSameResult (fact_of fact.now) }
{
    match *fact {
        Fact::Equal { second, first } => is_result(second) && is_result(first),
        Fact::First(_, _) | Fact::Second(_, _) => false,
    }
}

// The fact, of r0 to r11, holds behind a call that is made in the two states.
fn fact_lasts(alloc: Global, fact: &Fact, s: &State, t: &State) -> Result<(), Doubt>
    ensures { OnOk result (Lasts (fact_of fact.now) (state_of s.now) (state_of t.now)) }
{
    if is_same_result(fact) {
        return Ok(());
    }
    if !outlasts(fact) {
        return Err(Doubt::NotShown);
    }
    fact_holds(alloc, fact, s, t)?;
    Ok(())
}

/// All these facts hold behind a call that is made in the two states: r0 is what the call gives.
pub fn facts_last(alloc: Global, facts: &[Fact], s: &State, t: &State) -> Result<(), Doubt>
    ensures { OnOk result (AllLast (map fact_of facts.now) (state_of s.now) (state_of t.now)) }
{
    match facts {
        [] => Ok(()),
        [fact, facts @ ..] => {
            fact_lasts(alloc, fact, s, t)?;
            facts_last(alloc, facts, s, t)?;
            Ok(())
        }
    }
}
