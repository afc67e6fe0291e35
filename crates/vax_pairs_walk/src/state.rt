// A state on terms: what is known of the registers and of the condition codes.
ghost use Rattle.std.specs.Prelude.{◌≡◌, map, IfOk, OnOk};
ghost use Rattle.term_core.specs.Shape.{shape_of};
ghost use Rattle.vax_pairs.specs.TermOperands.{in_register, holding};
ghost use Rattle.vax_pairs_walk.specs.Views.{signs_of, carry_of, state_of};

use crate::gap::Gap;
use crate::heap::{boxed, copied};
use crate::size::{TERM_LIMIT, room_behind};
use gg_base::{NoMemory, Size};
use std::alloc::Global;
use term_core::{Term, copy};
use vax_core::Reg;
use vax_machine::function::Function;

/// What N and Z are: as at the beginning, those of a number at a size, or of two numbers of a size compared.
#[derive(Drop)]
pub enum Signs {
    Before,
    Tests(Size, Box<Term>),
    Compares(Size, Box<Term>, Box<Term>),
}

/// What C is: as at the beginning, or as a function of the machine leaves it.
#[derive(Drop)]
pub enum Carry {
    Before,
    Made(Function, Box<Term>, Box<Term>),
}

/// What r0 to r11, ap, fp and sp hold, and the condition codes.
#[derive(Drop)]
pub struct State {
    pub registers: Vec<Term>,
    pub signs: Signs,
    pub carry: Carry,
}

impl Signs {
    fn copied(&self, alloc: Global) -> Result<Signs, NoMemory>
        ensures { IfOk result (λ s. signs_of s ≡ signs_of self.now) }
    {
        match self {
            Signs::Before => Ok(Signs::Before),
            Signs::Tests(size, t) => Ok(Signs::Tests(*size, copied(alloc, t)?)),
            Signs::Compares(size, a, b) => {
                let a = copied(alloc, a)?;
                let b = copied(alloc, b)?;
                Ok(Signs::Compares(*size, a, b))
            }
        }
    }
}

impl Carry {
    fn copied(&self, alloc: Global) -> Result<Carry, NoMemory>
        ensures { IfOk result (λ c. carry_of c ≡ carry_of self.now) }
    {
        match self {
            Carry::Before => Ok(Carry::Before),
            Carry::Made(function, a, b) => {
                let a = copied(alloc, a)?;
                let b = copied(alloc, b)?;
                Ok(Carry::Made(*function, a, b))
            }
        }
    }
}

fn all_copied(alloc: Global, terms: &[Term]) -> Result<Vec<Term>, NoMemory>
    ensures { IfOk result (λ v. map shape_of v.items ≡ map shape_of terms.now) }
{
    let mut copies = Vec::new(alloc);
    for t in terms {
        copies.push(copy(alloc, t)?)?;
    }
    Ok(copies)
}

impl State {
    /// The same state, in memory of its own.
    pub fn copied(&self, alloc: Global) -> Result<State, NoMemory>
        ensures { IfOk result (λ s. state_of s ≡ state_of self.now) }
    {
        let registers = all_copied(alloc, &self.registers)?;
        let signs = self.signs.copied(alloc)?;
        let carry = self.carry.copied(alloc)?;
        Ok(State {
            registers,
            signs,
            carry,
        })
    }

    /// What a register holds.
    pub fn register(&self, alloc: Global, r: Reg) -> Result<Box<Term>, NoMemory>
        ensures { IfOk result (λ t. shape_of t.value ≡ in_register (state_of self.now) r) }
    {
        match self.registers.get(r.number()) {
            Some(t) => copied(alloc, t),
            None => boxed(alloc, Term::K(0)),
        }
    }
    /// A register holds this; None where the term is too large.
    pub fn hold(&mut self, r: usize, t: Box<Term>) -> Result<(), Gap>
        ensures { OnOk result (state_of self.new ≡ holding (state_of self.old) r (shape_of t.value)) }
    {
        if r >= self.registers.len() || room_behind(&t, TERM_LIMIT).is_none() {
            return Err(Gap::NoTree);
        }
        self.registers[r] = Box::into_inner(t);
        Ok(())
    }
}
