// Which copies are known where.

use crate::copies::Copies;
use crate::inlined_jumps::goal;
use crate::stops::Stops;
use crate::uses::effect_of;
use gg_base::NoMemory;
use std::alloc::Global;
use vax_core::{CodeItem, Instr};
use vax_machine::function::{Action, Test, action_of};
use vax_pairs_masks::labels::Labels;

/// How often a code is gone through at most.
const ROUNDS: u32 = 1000;

/// Available copies: what is known on all ways that lead to a place of a code, while it is gone through from the front on.
#[derive(Drop)]
pub struct Available<'a> {
    items: &'a [CodeItem],
    labels: Labels<'a>,
    /// Where pieces stop that are shown to do the same.
    stops: Stops,
    /// What is known where branches come to a place; none where no way was found so far.
    arriving: Vec<Option<Copies>>,
    /// What is known behind the last item.
    here: Option<Copies>,
    falls: bool,
}

// What is known where two ways meet.
fn met(one: Option<Copies>, other: Option<Copies>) -> Option<Copies> {
    match (one, other) {
        (Some(one), Some(other)) => Some(one.and(&other)),
        (Some(known), None) | (None, Some(known)) => Some(known),
        (None, None) => None,
    }
}

// How many copies are known; more than any where no way was found.
fn count(known: &Option<Copies>) -> usize {
    match known {
        None => 13,
        Some(copies) => copies.count(),
    }
}

impl<'a> Available<'a> {
    // The place to which an instruction branches.
    fn goal(&self, instr: &Instr) -> Option<usize> {
        match action_of(instr.op) {
            Action::Branch(_) => goal(&self.labels, instr),
            Action::Compute(_) | Action::Push | Action::Call | Action::Return => None,
        }
    }

    // A branch comes to a place with what is known here.
    fn arrive(&mut self, to: usize) {
        let here = self.here;
        if let Some(arriving) = self.arriving.get_mut(to) {
            let less = met(*arriving, here);
            if count(&less) < count(arriving) {
                self.falls = true;
            }
            *arriving = less;
        }
    }

    // What is known behind a label at a place.
    fn label(&mut self, place: usize) {
        let arriving = match self.arriving.get(place) {
            Some(arriving) => *arriving,
            None => None,
        };
        self.here = met(self.here, arriving);
        self.stop(place);
    }

    // Nothing is known of registers where a piece stops.
    fn stop(&mut self, place: usize) {
        if let (true, Some(here)) = (self.stops.has(place), &mut self.here) {
            here.forget_registers();
        }
    }

    // What is known behind the instruction at a place.
    fn instr(&mut self, place: usize, instr: &Instr) {
        if let Some(to) = self.goal(instr) {
            self.arrive(to);
        }
        match action_of(instr.op) {
            Action::Branch(Test::Always) | Action::Return => self.here = None,
            Action::Branch(_) => {}
            Action::Compute(_) | Action::Push => {
                if let Some(here) = &mut self.here {
                    here.pass(instr);
                }
            }
            Action::Call => {
                if let Some(here) = &mut self.here {
                    here.forget(effect_of(instr).writes.registers);
                }
                self.stop(place.saturating_add(1));
            }
        }
    }

    /// Goes over the item at a place.
    pub fn pass(&mut self, place: usize, item: &CodeItem) {
        match item {
            CodeItem::Label(_) => self.label(place),
            CodeItem::Globl(_) => {}
            CodeItem::Mask(_) => self.here = Some(Copies::NONE),
            CodeItem::Instr(instr) => self.instr(place, instr),
        }
    }

    /// What is known in front of the next item.
    pub fn here(&self) -> Copies {
        match self.here {
            Some(copies) => copies,
            None => Copies::NONE,
        }
    }

    // Goes through all items, once; whether less is known somewhere than before.
    fn sweep(&mut self) -> bool {
        self.here = None;
        self.falls = false;
        let items = self.items;
        for (place, item) in items.iter().enumerate() {
            self.pass(place, item);
        }
        self.falls
    }

    // Goes through all items until no less is known; nothing is where that takes too long.
    fn settle(&mut self) {
        for _ in 0..ROUNDS {
            if !self.sweep() {
                return;
            }
        }
        for arriving in &mut self.arriving {
            *arriving = Some(Copies::NONE);
        }
    }

    /// What is known in these items, in front of the first.
    pub fn of(alloc: Global, items: &'a [CodeItem]) -> Result<Self, NoMemory> {
        let mut arriving = Vec::new(alloc);
        for _ in items {
            arriving.push(None)?;
        }
        let labels = Labels::of(alloc, items)?;
        let stops = Stops::of(alloc, items, &labels)?;
        let mut available = Available {
            items,
            labels,
            stops,
            arriving,
            here: None,
            falls: false,
        };
        available.settle();
        available.here = None;
        Ok(available)
    }
}
