// Loops whose test stands behind their body.

use crate::fresh::Fresh;
use crate::inlined_jumps::{InlinedJump, goal, inline_all, jump_goal, may_inline};
use crate::stops::Stops;
use gg_base::NoMemory;
use std::alloc::Global;
use vax_core::{Code, CodeItem, Instr};
use vax_machine::function::{Action, Test, action_of};
use vax_pairs_masks::labels::Labels;
use vax_validated::Change;

/// How many instructions of a test are copied at most.
const LONGEST: usize = 8;

/// Loop inversion: a jump to the test of a loop, right in front of the loop's body, becomes a copy of the test, with a jump out of the loop
/// behind it. So no jump is done where a first turn is.
#[derive(Drop)]
pub struct LoopInversion;

/// What an instruction is to the test of a loop.
#[derive(Clone, Copy)]
enum Part {
    Inside,
    /// By it the next turn begins.
    Last,
    Outside,
}

/// The items of a code, and the place of a jump among them.
#[derive(Clone, Copy)]
struct Jump<'a> {
    items: &'a [CodeItem],
    place: usize,
}

impl<'a> Jump<'a> {
    // Whether nothing but labels stands between the jump and a label behind it.
    fn stands_before(self, label: usize) -> bool {
        let next = self.place.saturating_add(1);
        let mut between = self.items.iter().take(label).skip(next);
        self.place < label && between.all(|item| matches!(item, CodeItem::Label(_)))
    }

    // What an instruction is to the test of the loop whose body is next behind the jump.
    fn part(self, labels: &Labels, instr: &Instr) -> Part {
        match action_of(instr.op) {
            Action::Compute(_) | Action::Push | Action::Call => Part::Inside,
            Action::Branch(Test::Always) | Action::Return => Part::Outside,
            Action::Branch(_) => match goal(labels, instr) {
                Some(label) if self.stands_before(label) => Part::Last,
                _ => Part::Inside,
            },
        }
    }

    // The last place of the test that begins at a place.
    fn last(self, labels: &Labels, first: usize) -> Option<usize> {
        let mut length = 0;
        for (place, item) in self.items.iter().enumerate().skip(first) {
            let part = match item {
                CodeItem::Label(_) => continue,
                CodeItem::Globl(_) | CodeItem::Mask(_) => Part::Outside,
                CodeItem::Instr(_) if length >= LONGEST => Part::Outside,
                CodeItem::Instr(instr) => self.part(labels, instr),
            };
            match part {
                Part::Inside => length += 1,
                Part::Last => return Some(place),
                Part::Outside => return None,
            }
        }
        None
    }
}

// The jumps to tests of loops.
fn jumps(alloc: Global, items: &[CodeItem]) -> Result<Vec<InlinedJump>, NoMemory> {
    let labels = Labels::of(alloc, items)?;
    let stops = Stops::of(alloc, items, &labels)?;
    let mut fresh = Fresh::new(alloc);
    let mut found = Vec::new(alloc);
    for (place, item) in items.iter().enumerate() {
        let jump = Jump { items, place };
        let Some(first) = jump_goal(&labels, item) else {
            continue;
        };
        let Some(last) = jump.last(&labels, first) else {
            continue;
        };
        if !may_inline(items, &stops, first, last) {
            continue;
        }
        found.push(InlinedJump {
            jump: place,
            first,
            last,
            out: Some(fresh.name(&labels)?),
        })?;
    }
    Ok(found)
}

impl Change for LoopInversion {
    fn change(&mut self, alloc: Global, code: &Code) -> Result<Code, NoMemory> {
        let jumps = jumps(alloc, code.items.as_slice())?;
        inline_all(alloc, code, &jumps)
    }
}
