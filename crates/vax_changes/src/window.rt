// Two instructions in a row, of which one may be made.

use crate::live::Live;
use crate::uses::Uses;
use bitflags::Flags;
use gg_base::NoMemory;
use std::alloc::Global;
use vax_core::{Code, CodeItem, Instr, Reg};
use vax_validated::copying::{copy_item, with_area_of};

/// An instruction, the one that is next behind it, and what may be read behind both.
#[derive(Clone, Copy)]
pub struct Window<'a> {
    pub alloc: Global,
    pub first: &'a Instr,
    pub second: &'a Instr,
    pub behind: Uses,
}

impl<'a> Window<'a> {
    /// Whether nothing behind both reads a register.
    pub fn is_dead(self, r: Reg) -> bool {
        !self.behind.registers.intersects(r.set())
    }
}

/// A way to do two instructions by one.
pub trait Join: Drop {
    /// The one for both; none where they stay.
    fn join(&self, window: Window) -> Result<Option<Instr>, NoMemory>;
}

// The window at a place, where instructions stand there and next.
fn window_at<'a>(
    alloc: Global,
    live: &Live,
    items: &'a [CodeItem],
    place: usize,
) -> Option<Window<'a>> {
    let next = place.saturating_add(1);
    match (items.get(place), items.get(next)) {
        (Some(CodeItem::Instr(first)), Some(CodeItem::Instr(second))) => Some(Window {
            alloc,
            first,
            second,
            behind: live.behind(next, second),
        }),
        _ => None,
    }
}

// The instruction for the two at a place.
fn joined<J: Join>(
    alloc: Global,
    join: &J,
    live: &Live,
    items: &[CodeItem],
    place: usize,
) -> Result<Option<Instr>, NoMemory> {
    match window_at(alloc, live, items, place) {
        None => Ok(None),
        Some(window) => join.join(window),
    }
}

/// The code in which two instructions in a row are one where there is one for both, from the front on.
pub fn join_all<J: Join>(alloc: Global, code: &Code, join: &J) -> Result<Code, NoMemory> {
    let items = code.items.as_slice();
    let live = Live::of(alloc, items)?;
    let mut kept = Vec::new(alloc);
    let mut is_done = false;
    for (place, item) in items.iter().enumerate() {
        if is_done {
            is_done = false;
            continue;
        }
        match joined(alloc, join, &live, items, place)? {
            None => kept.push(copy_item(alloc, item)?)?,
            Some(instr) => {
                kept.push(CodeItem::Instr(instr))?;
                is_done = true;
            }
        }
    }
    with_area_of(alloc, code, kept)
}
