// The two codes of a pair, and what belongs to each.
ghost use Rattle.std.specs.Prelude.{◌≡◌, ℕ, ◌<◌, map, IfOk};
ghost use Rattle.term_core.specs.Shape.{shape_of};
ghost use Rattle.vax_core.specs.Registers.{reg_number};
ghost use Rattle.vax_pairs.specs.Facts.{first_term, second_term};
ghost use Rattle.vax_pairs_walk.specs.Stepping.{is_marked};
ghost use Rattle.vax_pairs_walk.specs.Views.{state_of};
ghost use Rattle.vax_pairs_cuts.specs.Views.{fact_of, cut_of};
ghost use Rattle.vax_pairs_accepted.specs.Sides.{place_of, is_place, term_of, begins};

use std::alloc::Global;
use term_core::Term;
use vax_core::Reg;
use vax_pairs_cuts::cut::Cut;
use vax_pairs_cuts::fact::{Fact, GENERAL};
use vax_pairs_same::doubt::Doubt;
use vax_pairs_walk::state::{Carry, Signs, State};

/// One of the two codes.
#[derive(Clone, Copy, Debug, PartialEq, Eq)]
pub enum Side {
    First,
    Second,
}

// The number of a register, as that of a symbol.
#[tactic(auto, using(crate::proofs::Numbers::number_low))]
fn symbol(r: Reg) -> u8
    ensures number { result ≡ reg_number r }
    ensures low { result < 15 }
{
    r.number() as u8
}

// What a register of the first machine has.
fn first_term(facts: &[Fact], r: Reg) -> Term
    ensures { shape_of result ≡ first_term (map fact_of facts.now) (reg_number r) }
{
    match facts {
        [] => Term::V(symbol(r)),
        [Fact::First(q, v), facts @ ..] => {
            if q.number() == r.number() {
                return Term::K(*v);
            }
            first_term(facts, r)
        }
        [_, facts @ ..] => first_term(facts, r),
    }
}

// What a register of the second machine has.
fn second_term(facts: &[Fact], r: Reg) -> Term
    ensures { shape_of result ≡ second_term (map fact_of facts.now) (reg_number r) }
{
    match facts {
        [] => Term::V(15 + symbol(r)),
        [Fact::Equal { second, first }, facts @ ..] => {
            if second.number() == r.number() {
                return Term::V(symbol(*first));
            }
            second_term(facts, r)
        }
        [Fact::Second(q, v), facts @ ..] => {
            if q.number() == r.number() {
                return Term::K(*v);
            }
            second_term(facts, r)
        }
        [_, facts @ ..] => second_term(facts, r),
    }
}

impl Side {
    /// Its place of a cut.
    pub fn place(self, cut: &Cut) -> usize
        ensures { result ≡ place_of self (cut_of cut.now) }
    {
        match self {
            Side::First => cut.first,
            Side::Second => cut.second,
        }
    }

    /// For each of so many places whether it is one of a cut.
    pub fn marks(self, alloc: Global, cuts: &[Cut], count: usize) -> Result<Vec<bool>, Doubt>
        ensures { IfOk result (λ v. (place : ℕ) → is_marked v.items place ≡ is_place self (map cut_of cuts.now) place) }
    {
        let mut marks = vec![in alloc; false; count]?;
        for cut in cuts {
            let place = self.place(cut);
            if place >= marks.len() {
                return Err(Doubt::NotShown);
            }
            marks[place] = true;
        }
        Ok(marks)
    }

    // What a register of its machine has where these facts hold.
    fn term(self, facts: &[Fact], r: Reg) -> Term
        ensures { shape_of result ≡ term_of self (map fact_of facts.now) (reg_number r) }
    {
        match self {
            Side::First => first_term(facts, r),
            Side::Second => second_term(facts, r),
        }
    }

    // What r0 to r11, ap, fp and sp have.
    fn registers(self, alloc: Global, facts: &[Fact]) -> Result<Vec<Term>, Doubt>
        ensures { IfOk result (λ v. map shape_of v.items ≡ (begins self (map fact_of facts.now)).registers) }
    {
        let mut registers = Vec::new(alloc);
        for r in &GENERAL {
            registers.push(self.term(facts, *r))?;
        }
        registers.push(Term::V(12))?;
        registers.push(Term::V(13))?;
        registers.push(Term::V(14))?;
        Ok(registers)
    }

    /// The state of its machine where these facts hold.
    pub fn begins(self, alloc: Global, facts: &[Fact]) -> Result<State, Doubt>
        ensures { IfOk result (λ s. state_of s ≡ begins self (map fact_of facts.now)) }
    {
        let registers = self.registers(alloc, facts)?;
        Ok(State {
            registers,
            signs: Signs::Before,
            carry: Carry::Before,
        })
    }
}
