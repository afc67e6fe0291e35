// The plan, and its events.
use crate::free::free_at;
use crate::items::items_of;
use crate::lists::Lists;
use crate::masks::{beginnings, bit, has};
use crate::rows::{Free, Part, Readers, Row, row_of};
use crate::steps::{Begins, Step};
use gg_base::NoMemory;
use lr_check_found::Item;
use lr_tables::{State, Tables, number};
use md_reader::Sym;
use std::alloc::Global;
use tree_core::{Sort, Tok, tokens};

/// What is new: places of a state and a token; a list that settles there, by its number in the row; or
/// tokens with which the second kid of a part may begin.
#[derive(Clone, Copy, Debug)]
pub enum Event {
    Places(State, Tok, u64),
    Settled(State, Tok, usize, u64),
    Seconds(usize, u64),
}

/// The steps up to now, and what they follow from.
#[derive(Drop)]
pub struct Plan<'a> {
    pub tables: &'a Tables,
    pub steps: Vec<Step>,
    pub lists: Lists,
    pub singles: Vec<usize>,
    pub free: Vec<Free>,
    pub rows: Vec<Row>,
    pub readers: Vec<Readers>,
    pub parts: Vec<Part>,
    pub events: Vec<Event>,
}

impl<'a> Plan<'a> {
    fn new(alloc: Global, tables: &'a Tables) -> Result<Self, NoMemory> {
        let mut rows = Vec::new(alloc);
        let mut readers = Vec::new(alloc);
        let mut free = Vec::new(alloc);
        let mut lists = Lists::new(alloc);
        let mut singles = Vec::new(alloc);
        for token in tokens() {
            singles.push(lists.push(Sym::Tok(*token), 0)?)?;
        }
        for number in 0..tables.states() {
            if let Ok(number) = u16::try_from(number) {
                free.push(free_at(alloc, tables, State::of(number))?)?;
            }
            readers.push(Readers::new(alloc))?;
            for _token in 0..40_usize {
                rows.push(Row::new(alloc))?;
            }
        }
        Ok(Plan {
            tables,
            steps: Vec::new(alloc),
            lists,
            singles,
            free,
            rows,
            readers,
            parts: Vec::new(alloc),
            events: Vec::new(alloc),
        })
    }

    /// The row's places, by the tokens behind.
    pub fn places_at(&self, state: State, token: Tok) -> u64 {
        match self.rows.get(row_of(state, token)) {
            Some(row) => row.places,
            None => 0,
        }
    }

    /// The list of the token alone.
    pub fn single(&self, token: Tok) -> usize {
        match self.singles.get(number(token)) {
            Some(list) => *list,
            None => 0,
        }
    }

    fn start(&mut self, alloc: Global) -> Result<(), NoMemory> {
        let first = beginnings(Sort::Stmt);
        for token in tokens() {
            if has(first, *token) {
                self.add_places(State::START, *token, bit(Tok::End), Begins::Whole)?;
            }
        }
        for at in 0..usize::MAX {
            let event = match self.events.get(at) {
                Some(event) => *event,
                None => return Ok(()),
            };
            self.follow(alloc, event)?;
        }
        Ok(())
    }

    fn follow(&mut self, alloc: Global, event: Event) -> Result<(), NoMemory> {
        match event {
            Event::Places(state, token, more) => self.after_places(alloc, state, token, more),
            Event::Settled(state, token, entry, more) => {
                self.after_settled(alloc, state, token, entry, more)
            }
            Event::Seconds(part, more) => self.after_seconds(alloc, part, more),
        }
    }
}

/// Steps in which all places and lists that settle are found, each behind those from which it follows.
pub fn planned_steps(alloc: Global, tables: &Tables) -> Result<Vec<Step>, NoMemory> {
    let mut plan = Plan::new(alloc, tables)?;
    plan.start(alloc)?;
    Ok(plan.steps)
}

/// The same as items, one for each token behind, numbered as they stand.
pub fn planned(alloc: Global, tables: &Tables) -> Result<Vec<Item>, NoMemory> {
    let steps = planned_steps(alloc, tables)?;
    items_of(alloc, tables.states(), &steps)
}
