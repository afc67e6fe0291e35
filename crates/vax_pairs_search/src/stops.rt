// Where pieces of a code stop.

use gg_base::NoMemory;
use std::alloc::Global;
use vax_core::{CodeItem, Instr};
use vax_machine::function::{Action, Test, action_of};
use vax_pairs_masks::labels::Labels;
use vax_pairs_walk::services::{is_getchar, is_putchar};

/// Which labels pieces stop at.
#[derive(Clone, Copy, Debug, PartialEq, Eq)]
pub enum Heads {
    /// Those to which a branch goes back; pieces go on behind calls of services.
    Loops,
    /// Those to which any branch goes; pieces stop behind calls of services as well.
    All,
}

impl Heads {
    // Whether a branch at a place to another place makes a head of it.
    fn takes(self, from: usize, to: usize) -> bool {
        match self {
            Heads::Loops => to <= from,
            Heads::All => true,
        }
    }

    // Whether pieces stop behind an instruction.
    fn stops_behind(self, instr: &Instr) -> bool {
        matches!(action_of(instr.op), Action::Call)
            && (matches!(self, Heads::All) || !is_service(instr))
    }

    // The head that an instruction at a place makes.
    fn head(self, place: usize, instr: &Instr, labels: &Labels) -> Option<usize> {
        let to = goal(instr, labels)?;
        if self.takes(place, to) {
            Some(to)
        } else {
            None
        }
    }
}

// Whether an item is a line that does nothing.
fn is_line(item: &CodeItem) -> bool {
    matches!(item, CodeItem::Label(_) | CodeItem::Globl(_))
}

// Whether the function that an instruction calls is a service.
fn is_service(instr: &Instr) -> bool {
    match &instr.target {
        None => false,
        Some(name) => is_putchar(name.as_slice()) || is_getchar(name.as_slice()),
    }
}

// The place to which an instruction branches.
fn goal(instr: &Instr, labels: &Labels) -> Option<usize> {
    match (action_of(instr.op), &instr.target) {
        (Action::Branch(_), Some(name)) => labels.place(name.as_slice()),
        _ => None,
    }
}

// Whether an instruction branches to the label of that name.
fn branches_to(instr: &Instr, name: &[u8]) -> bool {
    match (action_of(instr.op), &instr.target) {
        (Action::Branch(_), Some(to)) => to.as_slice() == name,
        _ => false,
    }
}

fn is_jump(instr: &Instr) -> bool {
    matches!(action_of(instr.op), Action::Branch(Test::Always))
}

// Whether each branch to the label of that name always goes there.
fn is_jumped_to(items: &[CodeItem], name: &[u8]) -> bool {
    for item in items {
        if let CodeItem::Instr(instr) = item {
            if branches_to(instr, name) && !is_jump(instr) {
                return false;
            }
        }
    }
    true
}

/// For each place of a code whether pieces stop there: behind calls, and at heads with all lines around their labels.
///
/// What one code does between a stop and a head, the other may leave out. Then its pieces stop at the head already, and those of the one
/// stop not at the head but in front of the jumps to it, where only jumps go there.
#[derive(Drop)]
pub struct Stops {
    marks: Vec<bool>,
}

impl Stops {
    fn none(alloc: Global, places: usize) -> Result<Self, NoMemory> {
        let mut marks = Vec::new(alloc);
        for _ in 0..places {
            marks.push(false)?;
        }
        Ok(Stops { marks })
    }

    fn mark(&mut self, place: usize) {
        if let Some(mark) = self.marks.get_mut(place) {
            *mark = true;
        }
    }

    fn mark_line(&mut self, items: &[CodeItem], place: usize) {
        if items.get(place).is_some_and(is_line) {
            self.mark(place);
        }
    }

    fn has(&self, place: usize) -> bool {
        self.marks.get(place).copied().unwrap_or(false)
    }

    // A head is marked, or what stands behind a call.
    fn mark_for(&mut self, heads: Heads, place: usize, instr: &Instr, labels: &Labels) {
        if let Some(to) = heads.head(place, instr, labels) {
            self.mark(to);
        }
        if heads.stops_behind(instr) {
            self.mark(place.saturating_add(1));
        }
    }

    // Marks go over from a line to the one behind it.
    fn spread_ahead(&mut self, items: &[CodeItem]) {
        for (place, item) in items.iter().enumerate() {
            let behind = place.saturating_add(1);
            if self.has(place) && is_line(item) && items.get(behind).is_some_and(is_line) {
                self.mark(behind);
            }
        }
    }

    // And from a line to the one in front of it.
    fn spread_back(&mut self, items: &[CodeItem]) {
        for place in (0..items.len()).rev() {
            let behind = place.saturating_add(1);
            if self.has(behind)
                && items.get(place).is_some_and(is_line)
                && items.get(behind).is_some_and(is_line)
            {
                self.mark(place);
            }
        }
    }

    /// Where pieces of these items stop by themselves: at heads and behind calls.
    pub fn of(
        alloc: Global,
        heads: Heads,
        items: &[CodeItem],
        labels: &Labels,
    ) -> Result<Self, NoMemory> {
        let mut stops = Stops::none(alloc, items.len())?;
        for (place, item) in items.iter().enumerate() {
            if let CodeItem::Instr(instr) = item {
                stops.mark_for(heads, place, instr, labels);
            }
        }
        Ok(stops)
    }

    // Whether pieces begin or stop in front of the label at a place, with lines alone between.
    fn is_behind_stop(&self, heads: Heads, items: &[CodeItem], place: usize) -> bool {
        for at in (0..place).rev() {
            match items.get(at) {
                None => return false,
                Some(CodeItem::Mask(_)) => return true,
                Some(CodeItem::Instr(instr)) => return heads.stops_behind(instr),
                Some(CodeItem::Label(_) | CodeItem::Globl(_)) => {
                    if self.has(at) {
                        return true;
                    }
                }
            }
        }
        false
    }

    // In front of the jumps to the label of that name, in place of at it.
    fn move_to_jumps(&mut self, items: &[CodeItem], name: &[u8], place: usize) {
        if let Some(mark) = self.marks.get_mut(place) {
            *mark = false;
        }
        for (at, item) in items.iter().enumerate() {
            if let CodeItem::Instr(instr) = item {
                if branches_to(instr, name) {
                    self.mark(at);
                    self.mark_line(items, at.saturating_sub(1));
                }
            }
        }
    }

    // Whether something stands between the head at a place and the stop in front of it.
    fn is_parted(&self, heads: Heads, items: &[CodeItem], place: usize) -> bool {
        self.has(place) && !self.is_behind_stop(heads, items, place)
    }

    // Whether nothing does.
    fn is_close(&self, heads: Heads, items: &[CodeItem], place: Option<usize>) -> bool {
        match place {
            None => false,
            Some(place) => self.is_behind_stop(heads, items, place),
        }
    }

    /// Beside the other code: where that leaves out what stands between a stop and a head to which only jumps go, the stop is moved.
    pub fn beside(
        &mut self,
        heads: Heads,
        items: &[CodeItem],
        others: &Stops,
        other_items: &[CodeItem],
        other_labels: &Labels,
    ) {
        for (place, item) in items.iter().enumerate() {
            if let CodeItem::Label(name) = item {
                let name = name.as_slice();
                let there = other_labels.place(name);
                if self.is_parted(heads, items, place)
                    && others.is_close(heads, other_items, there)
                    && is_jumped_to(items, name)
                {
                    self.move_to_jumps(items, name, place);
                }
            }
        }
    }

    /// With the lines around heads.
    pub fn spread(&mut self, items: &[CodeItem]) {
        self.spread_ahead(items);
        self.spread_back(items);
    }

    /// For each place whether pieces stop there.
    pub fn as_slice(&self) -> &[bool] {
        &self.marks
    }
}
