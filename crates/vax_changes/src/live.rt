// Which registers and condition codes may be read behind an instruction.

use crate::parts::moves_to_itself;
use crate::uses::{Uses, effect_of, is_calm_instr};
use gg_base::NoMemory;
use std::alloc::Global;
use vax_core::{CodeItem, Instr};
use vax_machine::function::{Action, Test, action_of};
use vax_pairs_masks::labels::Labels;

/// How often a code is gone through at most.
const ROUNDS: u32 = 1000;

/// For each place of a code what may be read from there on before it is written, but for reads of what nothing reads.
#[derive(Drop)]
pub struct Live<'a> {
    items: &'a [CodeItem],
    labels: Labels<'a>,
    before: Vec<Uses>,
}

impl<'a> Live<'a> {
    /// What may be read from a place on.
    fn at(&self, place: usize) -> Uses {
        match self.before.get(place) {
            Some(uses) => *uses,
            None => Uses::none(),
        }
    }

    /// What may be read behind the instruction at a place.
    pub fn behind(&self, place: usize, instr: &Instr) -> Uses {
        let next = self.at(place.saturating_add(1));
        let Action::Branch(test) = action_of(instr.op) else {
            return next;
        };
        let target = match &instr.target {
            None => None,
            Some(name) => self.labels.place(name.as_slice()),
        };
        let there = match target {
            None => Uses::none(),
            Some(place) => self.at(place),
        };
        match test {
            Test::Always => there,
            _ => there.and(next),
        }
    }

    /// Whether nothing reads what an instruction writes, or what it writes stands there, and it does nothing else.
    pub fn is_idle(&self, place: usize, instr: &Instr) -> bool {
        let behind = self.behind(place, instr);
        let is_dead = is_calm_instr(instr) && !effect_of(instr).writes.meets(behind);
        is_dead || (moves_to_itself(instr) && !behind.signs)
    }

    /// The same of the item at a place.
    pub fn is_idle_item(&self, place: usize, item: &CodeItem) -> bool {
        match item {
            CodeItem::Instr(instr) => self.is_idle(place, instr),
            CodeItem::Label(_) | CodeItem::Globl(_) | CodeItem::Mask(_) => false,
        }
    }

    // What may be read from an item on.
    fn item(&self, place: usize, item: &CodeItem) -> Uses {
        let CodeItem::Instr(instr) = item else {
            return self.at(place.saturating_add(1));
        };
        let behind = self.behind(place, instr);
        if self.is_idle(place, instr) {
            return behind;
        }
        let effect = effect_of(instr);
        match action_of(instr.op) {
            Action::Return => effect.reads,
            _ => effect.reads.and(behind.without(effect.writes)),
        }
    }

    // From the end on, once; whether more may be read somewhere than was known.
    fn sweep(&mut self) -> bool {
        let mut grows = false;
        let items = self.items;
        for place in (0..items.len()).rev() {
            let Some(item) = items.get(place) else {
                continue;
            };
            let uses = self.item(place, item);
            if let Some(known) = self.before.get_mut(place) {
                let more = known.and(uses);
                if more != *known {
                    *known = more;
                    grows = true;
                }
            }
        }
        grows
    }

    /// What may be read in these items.
    pub fn of(alloc: Global, items: &'a [CodeItem]) -> Result<Self, NoMemory> {
        let mut before = Vec::new(alloc);
        for _ in items {
            before.push(Uses::none())?;
        }
        let labels = Labels::of(alloc, items)?;
        let mut live = Live {
            items,
            labels,
            before,
        };
        for _ in 0..ROUNDS {
            if !live.sweep() {
                break;
            }
        }
        Ok(live)
    }
}
