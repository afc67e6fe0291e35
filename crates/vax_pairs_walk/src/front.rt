// What a piece of code has done so far.
ghost use Rattle.std.specs.Prelude.{◌≡◌, Some, OnOk};
ghost use Rattle.term_core.specs.Shape.{shape_of, Symbol};
ghost use Rattle.vax_pairs_walk.specs.Answers.{Leads};
ghost use Rattle.vax_pairs_walk.specs.Taking.{reading, set_in};
ghost use Rattle.vax_pairs_walk.specs.Views.{held, front_of};

use crate::gap::Gap;
use crate::heap::{boxed, copied};
use crate::operands::Event;
use crate::state::State;
use gg_base::Size;
use std::alloc::Global;
use term_core::Term;
use vax_core::Reg;

/// What a piece of code has done so far: its events in their order, and the state behind them; so many symbols are known there.
#[derive(Drop)]
pub struct Front {
    pub events: Vec<Event>,
    pub known: u8,
    pub state: State,
}

impl Front {
    /// The number of this size at an address is read: the next symbol.
    pub fn read(&mut self, alloc: Global, size: Size, a: Box<Term>) -> Result<Box<Term>, Gap>
        ensures { Leads held result (front_of self.new)
            (Some (Symbol self.old.known, reading (front_of self.old) size (shape_of a.value))) }
    {
        let symbol = self.known;
        let Some(behind) = symbol.checked_add(1) else {
            return Err(Gap::NoTree);
        };
        self.events.push(Event::Reads(size, a))?;
        self.known = behind;
        Ok(boxed(alloc, Term::V(symbol))?)
    }

    /// A register holds this: one of r0 to r11, or sp, for which the stack has to have room.
    pub fn set_register(&mut self, alloc: Global, r: Reg, t: Box<Term>) -> Result<(), Gap>
        ensures { OnOk result (Some (front_of self.new) ≡ set_in (front_of self.old) r (shape_of t.value)) }
    {
        let n = r.number();
        if n < 12 {
            return self.state.hold(n, t);
        }
        if n != 14 {
            return Err(Gap::NoTree);
        }
        let sp = copied(alloc, &t)?;
        self.events.push(Event::Lowers(sp))?;
        self.state.hold(n, t)
    }
}
