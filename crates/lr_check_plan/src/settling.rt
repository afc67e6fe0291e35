// Lists that settle, and what follows from their reductions.
use crate::plan::{Event, Plan};
use crate::rows::{Entry, Free, row_of};
use crate::steps::{Settles, Source, Step};
use gg_base::NoMemory;
use lr_tables::State;
use md_reader::Sym;
use std::alloc::Global;
use tree_core::Tok;

/// What is known of a list of a row.
#[derive(Clone, Copy, Debug)]
pub struct Known {
    pub list: usize,
    pub behind: Option<State>,
    pub settled: u64,
    pub sums: u64,
}

// Classes, each with the tokens behind at which a list is reduced to it.
fn add_class(classes: &mut Vec<(u16, u64)>, class: u16, behind: u64) -> Result<(), NoMemory> {
    for at in 0..classes.len() {
        if let Some(held) = classes.get_mut(at) {
            if held.0 == class {
                held.1 |= behind;
                return Ok(());
            }
        }
    }
    classes.push((class, behind))?;
    Ok(())
}

// Where a list's new tokens behind lead: those at which it is a sum, and the classes to which it is reduced.
#[derive(Drop)]
struct Ways {
    sums: u64,
    classes: Vec<(u16, u64)>,
}

fn ways_of(alloc: Global, free: &Free, size: usize, more: u64) -> Result<Ways, NoMemory> {
    let mut sums = more & free.shifts;
    let mut classes = Vec::new(alloc);
    for reduction in free.reductions.iter() {
        let set = more & reduction.tokens;
        if set == 0 || reduction.long < size {
            continue;
        }
        if reduction.long > size {
            sums |= set;
        } else {
            add_class(&mut classes, reduction.class, set)?;
        }
    }
    Ok(Ways { sums, classes })
}

impl<'a> Plan<'a> {
    pub fn known(&self, source: Source) -> Option<Known> {
        let entry = self.rows.get(source.row)?.entries.get(source.entry)?;
        Some(Known {
            list: entry.list,
            behind: entry.behind,
            settled: entry.settled,
            sums: entry.sums,
        })
    }

    // The number of the list in the row.
    fn entry_of(
        &mut self,
        alloc: Global,
        row: usize,
        list: usize,
        behind: Option<State>,
    ) -> Result<Option<usize>, NoMemory> {
        match self.rows.get_mut(row) {
            Some(row) => {
                if let Some(at) = row.entries.iter().position(|entry| entry.list == list) {
                    return Ok(Some(at));
                }
                let at = row.entries.len();
                row.entries.push(Entry {
                    list,
                    behind,
                    settled: 0,
                    sums: 0,
                })?;
                Ok(Some(at))
            }
            None => Ok(None),
        }
    }

    pub fn settle(
        &mut self,
        alloc: Global,
        state: State,
        token: Tok,
        wanted: u64,
        list: usize,
        behind: Option<State>,
        by: Settles,
    ) -> Result<(), NoMemory> {
        let row = row_of(state, token);
        let entry = match self.entry_of(alloc, row, list, behind)? {
            Some(entry) => entry,
            None => return Ok(()),
        };
        let source = Source { row, entry };
        let settled = match self.known(source) {
            Some(known) => known.settled,
            None => return Ok(()),
        };
        let more = wanted & !settled;
        if more == 0 {
            return Ok(());
        }
        if let Some(row) = self.rows.get_mut(row) {
            if let Some(entry) = row.entries.get_mut(entry) {
                entry.settled |= more;
            }
        }
        self.steps.push(Step::Settled {
            state,
            token,
            entry,
            behinds: more,
            by,
        })?;
        self.events.push(Event::Settled(state, token, entry, more))?;
        Ok(())
    }

    // The list settles as the classes to which it is reduced.
    fn settle_classes(
        &mut self,
        alloc: Global,
        state: State,
        token: Tok,
        whole: Source,
        classes: &[(u16, u64)],
    ) -> Result<(), NoMemory> {
        for at in 0..classes.len() {
            let (class, set) = classes[at];
            let list = self.lists.push(Sym::Class(class), 0)?;
            let over = self.tables.over(state, Sym::Class(class));
            let by = Settles::Reduced(whole, class);
            self.settle(alloc, state, token, set, list, over, by)?;
        }
        Ok(())
    }

    fn hold_sums(&mut self, source: Source, sums: u64) {
        if let Some(row) = self.rows.get_mut(source.row) {
            if let Some(entry) = row.entries.get_mut(source.entry) {
                entry.sums |= sums;
            }
        }
    }

    pub fn after_settled(
        &mut self,
        alloc: Global,
        state: State,
        token: Tok,
        entry: usize,
        more: u64,
    ) -> Result<(), NoMemory> {
        let row = row_of(state, token);
        let source = Source { row, entry };
        let known = match self.known(source) {
            Some(known) => known,
            None => return Ok(()),
        };
        let behind = match known.behind {
            Some(behind) => behind,
            None => return Ok(()),
        };
        let ways = match self.free.get(behind.number() as usize) {
            Some(free) => ways_of(alloc, free, self.lists.size(known.list), more)?,
            None => return Ok(()),
        };
        self.settle_classes(alloc, state, token, source, &ways.classes)?;
        if ways.sums == 0 {
            return Ok(());
        }
        self.hold_sums(source, ways.sums);
        self.read(alloc, state, token, source, known.list, behind, ways.sums)
    }
}
