// Where pieces of code end that are shown to do the same.

use crate::inlined_jumps::goal;
use gg_base::NoMemory;
use std::alloc::Global;
use vax_core::{CodeItem, Instr};
use vax_machine::function::{Action, action_of};
use vax_pairs_masks::labels::Labels;

/// For each place of a code whether such a piece ends there: at a label to which a branch goes back, and behind a call of a function.
#[derive(Drop)]
pub struct Stops {
    marks: Vec<bool>,
}

// Whether an item is a line that does nothing.
fn is_line(item: &CodeItem) -> bool {
    matches!(item, CodeItem::Label(_) | CodeItem::Globl(_))
}

// Whether the function that an instruction calls reads or writes a byte.
fn is_service(instr: &Instr) -> bool {
    match &instr.target {
        None => false,
        Some(name) => {
            let name = name.as_slice();
            name == b"_putchar".as_slice() || name == b"_getchar".as_slice()
        }
    }
}

impl Stops {
    fn mark(&mut self, place: usize) {
        if let Some(mark) = self.marks.get_mut(place) {
            *mark = true;
        }
    }

    /// Whether a piece ends at a place.
    pub fn has(&self, place: usize) -> bool {
        self.marks.get(place).copied().unwrap_or(false)
    }

    fn mark_for(&mut self, labels: &Labels, place: usize, instr: &Instr) {
        match (action_of(instr.op), goal(labels, instr)) {
            (Action::Branch(_), Some(to)) if to <= place => self.mark(to),
            (Action::Call, _) if !is_service(instr) => self.mark(place.saturating_add(1)),
            _ => {}
        }
    }

    // Marks go over from a line to the one next to it.
    fn spread(&mut self, items: &[CodeItem], from: usize, to: usize) {
        let are_lines = items.get(from).is_some_and(is_line) && items.get(to).is_some_and(is_line);
        if are_lines && self.has(from) {
            self.mark(to);
        }
    }

    /// Where pieces of these items end.
    pub fn of(alloc: Global, items: &[CodeItem], labels: &Labels) -> Result<Self, NoMemory> {
        let mut marks = Vec::new(alloc);
        for _ in items {
            marks.push(false)?;
        }
        let mut stops = Stops { marks };
        for (place, item) in items.iter().enumerate() {
            if let CodeItem::Instr(instr) = item {
                stops.mark_for(labels, place, instr);
            }
        }
        for place in 0..items.len() {
            stops.spread(items, place, place.saturating_add(1));
        }
        for place in (0..items.len()).rev() {
            stops.spread(items, place.saturating_add(1), place);
        }
        Ok(stops)
    }
}
