// The functions of a code, and a code in which some are put back.

use crate::copying::{copy_item, with_area_of};
use gg_base::NoMemory;
use std::alloc::Global;
use vax_core::{Code, CodeItem};

/// A function: from the first of the lines in front of its entry mask to where the next one begins.
#[derive(Clone, Copy)]
struct Function<'a> {
    name: &'a [u8],
    start: usize,
    end: usize,
}

impl<'a> Function<'a> {
    fn has(self, place: usize) -> bool {
        self.start <= place && place < self.end
    }
}

// The functions that are closed so far, and the lines since the last item that is none.
#[derive(Drop)]
struct Reading<'a> {
    closed: Vec<Function<'a>>,
    open: Option<Function<'a>>,
    lines: usize,
    name: &'a [u8],
}

impl<'a> Reading<'a> {
    fn close(&mut self, end: usize) -> Result<(), NoMemory> {
        if let Some(function) = self.open {
            self.closed.push(Function { end, ..function })?;
        }
        Ok(())
    }

    fn read(&mut self, place: usize, item: &'a CodeItem) -> Result<(), NoMemory> {
        match item {
            CodeItem::Label(name) => self.name = name.as_slice(),
            CodeItem::Globl(_) => {}
            CodeItem::Mask(_) => {
                let start = if self.open.is_none() { 0 } else { self.lines };
                self.close(start)?;
                self.open = Some(Function {
                    name: self.name,
                    start,
                    end: start,
                });
                self.lines = place.saturating_add(1);
            }
            CodeItem::Instr(_) => self.lines = place.saturating_add(1),
        }
        Ok(())
    }
}

fn functions<'a>(alloc: Global, items: &'a [CodeItem]) -> Result<Vec<Function<'a>>, NoMemory> {
    let mut reading = Reading {
        closed: Vec::new(alloc),
        open: None,
        lines: 0,
        name: &[],
    };
    for (place, item) in items.iter().enumerate() {
        reading.read(place, item)?;
    }
    reading.close(items.len())?;
    let Reading { closed, .. } = reading;
    Ok(closed)
}

fn push_all(
    alloc: Global,
    items: &mut Vec<CodeItem>,
    from: &[CodeItem],
    function: Function,
) -> Result<(), NoMemory> {
    for item in from.iter().take(function.end).skip(function.start) {
        items.push(copy_item(alloc, item)?)?;
    }
    Ok(())
}

/// The second code with those functions of the first put back that have one of these places.
pub fn put_back(alloc: Global, c: &Code, d: &Code, places: &[usize]) -> Result<Code, NoMemory> {
    let (items, others) = (c.items.as_slice(), d.items.as_slice());
    let olds = functions(alloc, items)?;
    let mut joined = Vec::new(alloc);
    for new in functions(alloc, others)?.iter() {
        let old = olds.iter().find(|old| {
            old.name == new.name && places.iter().any(|place| old.has(*place))
        });
        match old {
            Some(old) => push_all(alloc, &mut joined, items, *old)?,
            None => push_all(alloc, &mut joined, others, *new)?,
        }
    }
    with_area_of(alloc, d, joined)
}
