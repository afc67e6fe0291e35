// What is known of the registers of both machines at two places.

use gg_base::NoMemory;
use std::alloc::Global;
use term_core::{Term, norm, same_term};
use vax_pairs_cuts::fact::{Fact, GENERAL};
use vax_pairs_walk::state::{Carry, Signs, State};

/// The number of the first symbol that stands for a register of the second machine.
const SECOND: u8 = 15;

/// What is known of one general register.
#[derive(Clone, Copy)]
pub struct Register {
    /// The second machine's has what the first one's has.
    pub equal: bool,
    /// The number that the first machine's has.
    pub first: Option<u32>,
    /// The number that the second machine's has.
    pub second: Option<u32>,
}

/// What is known of r0 to r11.
#[derive(Clone, Copy)]
pub struct Known {
    each: [Register; 12],
}

const NOTHING: Register = Register {
    equal: false,
    first: None,
    second: None,
};

fn constant(t: &Term) -> Option<u32> {
    match t {
        Term::K(n) => Some(*n),
        _ => None,
    }
}

// What is known of a register where the machines have these terms there.
fn compared(alloc: Global, a: &Term, b: &Term) -> Result<Register, NoMemory> {
    let a = norm(alloc, a)?;
    let b = norm(alloc, b)?;
    Ok(Register {
        equal: same_term(alloc, &a, &b)?,
        first: constant(&a),
        second: constant(&b),
    })
}

// A number that is known both here and there.
fn both(here: Option<u32>, there: Option<u32>) -> Option<u32> {
    if here == there { here } else { None }
}

impl Register {
    fn and(self, other: Register) -> Register {
        Register {
            equal: self.equal && other.equal,
            first: both(self.first, other.first),
            second: both(self.second, other.second),
        }
    }

    // What the first machine has in it, as the register of this number.
    fn first_term(self, number: u8) -> Term {
        match self.first {
            Some(n) => Term::K(n),
            None => Term::V(number),
        }
    }

    // What the second machine has in it.
    fn second_term(self, number: u8) -> Term {
        match self.second {
            Some(n) => Term::K(n),
            None if self.equal => Term::V(number),
            None => Term::V(number.saturating_add(SECOND)),
        }
    }

    fn same(self, other: Register) -> bool {
        self.equal == other.equal && self.first == other.first && self.second == other.second
    }
}

impl Known {
    /// Nothing is known, as where a function begins.
    pub const NOTHING: Known = Known {
        each: [NOTHING; 12],
    };

    /// What is known of two states.
    pub fn of(alloc: Global, first: &State, second: &State) -> Result<Known, NoMemory> {
        let mut known = Known::NOTHING;
        for i in 0..12 {
            if let (Some(a), Some(b)) = (first.registers.get(i), second.registers.get(i)) {
                known.each[i] = compared(alloc, a, b)?;
            }
        }
        Ok(known)
    }

    /// What of it is known behind a call: nothing of r1, and that r0 is what the call gives.
    pub fn behind_call(mut self) -> Known {
        self.each[0] = Register {
            equal: true,
            first: None,
            second: None,
        };
        self.each[1] = NOTHING;
        self
    }

    /// What is known both here and there.
    pub fn and(mut self, other: Known) -> Known {
        for i in 0..12 {
            self.each[i] = self.each[i].and(other.each[i]);
        }
        self
    }

    /// Whether the same is known.
    pub fn same(self, other: Known) -> bool {
        for i in 0..12 {
            if !self.each[i].same(other.each[i]) {
                return false;
            }
        }
        true
    }

    /// The facts: numbers first, so that a register whose number is known is that number to both machines.
    pub fn facts(&self, alloc: Global) -> Result<Vec<Fact>, NoMemory> {
        let mut facts = Vec::new(alloc);
        for i in 0..12 {
            let (register, r) = (self.each[i], GENERAL[i]);
            if let Some(n) = register.first {
                facts.push(Fact::First(r, n))?;
            }
            if let Some(n) = register.second {
                facts.push(Fact::Second(r, n))?;
            } else if register.equal {
                facts.push(Fact::Equal {
                    second: r,
                    first: r,
                })?;
            }
        }
        Ok(facts)
    }

    /// The state on terms of the first machine.
    pub fn first(&self, alloc: Global) -> Result<State, NoMemory> {
        let mut registers = Vec::new(alloc);
        for i in 0..12 {
            registers.push(self.each[i as usize].first_term(i))?;
        }
        begins(registers)
    }

    /// The state on terms of the second machine.
    pub fn second(&self, alloc: Global) -> Result<State, NoMemory> {
        let mut registers = Vec::new(alloc);
        for i in 0..12 {
            registers.push(self.each[i as usize].second_term(i))?;
        }
        begins(registers)
    }
}

// The state in which a piece begins, with ap, fp and sp behind these registers.
fn begins(registers: Vec<Term>) -> Result<State, NoMemory> {
    let mut registers = registers;
    for symbol in 12..15 {
        registers.push(Term::V(symbol))?;
    }
    Ok(State {
        registers,
        signs: Signs::Before,
        carry: Carry::Before,
    })
}
