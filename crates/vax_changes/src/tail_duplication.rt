// Jumps to short tails.

use crate::fresh::Fresh;
use crate::inlined_jumps::{InlinedJump, inline_all, jump_goal, may_inline};
use crate::stops::Stops;
use gg_base::NoMemory;
use std::alloc::Global;
use vax_core::{Code, CodeItem, Instr};
use vax_machine::function::{Action, Test, action_of};
use vax_pairs_masks::labels::Labels;
use vax_validated::Change;

/// How many instructions are copied at most.
const LONGEST: usize = 5;

/// Tail duplication: a jump to a few instructions up to a branch, a jump or a return becomes a copy of them.
#[derive(Drop)]
pub struct TailDuplication;

/// How a tail ends: at this place, with a jump or a return, or with a branch behind which a run may go on.
#[derive(Clone, Copy)]
struct End {
    place: usize,
    goes_on: bool,
}

/// What an instruction is to a tail.
#[derive(Clone, Copy)]
enum Part {
    Inside,
    Last { goes_on: bool },
}

fn part_of(instr: &Instr) -> Part {
    match action_of(instr.op) {
        Action::Compute(_) | Action::Push | Action::Call => Part::Inside,
        Action::Branch(Test::Always) | Action::Return => Part::Last { goes_on: false },
        Action::Branch(_) => Part::Last { goes_on: true },
    }
}

// The end of the tail that begins at a place, where it is short.
fn end_from(items: &[CodeItem], first: usize) -> Option<End> {
    let mut length = 0;
    for (place, item) in items.iter().enumerate().skip(first) {
        let part = match item {
            CodeItem::Label(_) => continue,
            CodeItem::Globl(_) | CodeItem::Mask(_) => return None,
            CodeItem::Instr(instr) => part_of(instr),
        };
        if length >= LONGEST {
            return None;
        }
        length += 1;
        if let Part::Last { goes_on } = part {
            return Some(End { place, goes_on });
        }
    }
    None
}

// The jumps to short tails behind them.
fn jumps(alloc: Global, items: &[CodeItem]) -> Result<Vec<InlinedJump>, NoMemory> {
    let labels = Labels::of(alloc, items)?;
    let stops = Stops::of(alloc, items, &labels)?;
    let mut fresh = Fresh::new(alloc);
    let mut found = Vec::new(alloc);
    for (jump, item) in items.iter().enumerate() {
        let Some(first) = jump_goal(&labels, item) else {
            continue;
        };
        let Some(last) = end_from(items, first) else {
            continue;
        };
        if first < jump || !may_inline(items, &stops, first, last.place) {
            continue;
        }
        let out = if last.goes_on {
            Some(fresh.name(&labels)?)
        } else {
            None
        };
        found.push(InlinedJump {
            jump,
            first,
            last: last.place,
            out,
        })?;
    }
    Ok(found)
}

impl Change for TailDuplication {
    fn change(&mut self, alloc: Global, code: &Code) -> Result<Code, NoMemory> {
        let jumps = jumps(alloc, code.items.as_slice())?;
        inline_all(alloc, code, &jumps)
    }
}
