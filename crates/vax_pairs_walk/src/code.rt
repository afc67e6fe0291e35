// A code as it is walked.
ghost use Rattle.std.specs.Prelude.{◌≡◌, ◌+◌, Some};
ghost use Rattle.vax_machine.specs.Area.{resolved, label_address, size_at, is_area_label};
ghost use Rattle.vax_pairs_walk.specs.Answers.{Gives, itself};
ghost use Rattle.vax_machine.specs.Labels.{label_place, next_item, is_label};

use crate::gap::Gap;
use gg_base::limits::AREA_START;
use gg_base::{Name, w32};
use std::alloc::Global;
use vax_core::{Addr, AreaItem, CodeItem};

/// A code with its cuts, and where memory is taken from.
#[derive(Clone, Copy)]
pub struct Walk<'a> {
    pub alloc: Global,
    pub layout: &'a [AreaItem],
    pub items: &'a [CodeItem],
    /// For each place whether it is a cut.
    pub cuts: &'a [bool],
}

// How many bytes an item takes at an address.
fn size_at(item: &AreaItem, at: u32) -> Result<u32, Gap>
    ensures { Gives itself result (Some (size_at item.now at)) }
{
    match item {
        AreaItem::Label(_) | AreaItem::Globl(_) => Ok(0),
        AreaItem::Align(0) => Ok(0),
        AreaItem::Align(1) => Ok((2 - at % 2) % 2),
        AreaItem::Align(2) => Ok((4 - at % 4) % 4),
        AreaItem::Align(_) => Err(Gap::NoTree),
        AreaItem::Byte(_) => Ok(1),
        AreaItem::Word(_) => Ok(2),
        AreaItem::Long(_) => Ok(4),
        AreaItem::Space(n) => Ok(*n),
    }
}

fn is_area_label(item: &AreaItem, name: &[u8]) -> bool
    ensures { result ≡ is_area_label item.now name.now }
{
    match item {
        AreaItem::Label(label) => label.as_slice() == name,
        _ => false,
    }
}

fn is_label(item: &CodeItem, name: &[u8]) -> bool
    ensures { result ≡ is_label item.now name.now }
{
    match item {
        CodeItem::Label(label) => label.as_slice() == name,
        _ => false,
    }
}

impl<'a> Walk<'a> {
    // The address that a label of the data area stands for, where it fits 32 bits.
    fn label_address(self, name: &[u8]) -> Result<u32, Gap>
        ensures { Gives itself result (Some (label_address self.entry.layout.now name.now)) }
    {
        let mut at = AREA_START;
        for item in self.layout {
            if is_area_label(item, name) {
                return Ok(at);
            }
            let Some(behind) = at.checked_add(size_at(item, at)?) else {
                return Err(Gap::NoTree);
            };
            at = behind;
        }
        Ok(at)
    }

    /// The number that an address in an operand stands for.
    pub fn resolve(self, a: &Addr) -> Result<u32, Gap>
        ensures { Gives itself result (Some (resolved self.entry.layout.now a.now)) }
    {
        match &a.name {
            None => Ok(a.offset),
            Some(name) => Ok(w32::add(self.label_address(name.as_slice())?, a.offset)),
        }
    }

    /// The place of the label of that name, or behind all items.
    pub fn label_place(self, name: &[u8]) -> usize
        ensures { result ≡ label_place self.entry.items.now name.now }
    {
        for place in 0..self.items.len() {
            if is_label(&self.items[place], name) {
                return place;
            }
        }
        self.items.len()
    }

    /// The place of the next item from a place on: the first that is neither a label nor a `.globl` line.
    pub fn next_item(self, place: usize) -> usize
        ensures { result ≡ next_item self.entry.items.now place }
    {
        for next in place..self.items.len() {
            match &self.items[next] {
                CodeItem::Label(_) | CodeItem::Globl(_) => {}
                CodeItem::Mask(_) | CodeItem::Instr(_) => return next,
            }
        }
        place.max(self.items.len())
    }
}
