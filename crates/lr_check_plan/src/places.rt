// Places that are new, and what follows from them.
use crate::masks::{beginnings, first_of, without_first};
use crate::plan::{Event, Plan};
use crate::rows::{Reader, row_of};
use crate::steps::{Begins, Settles, Step};
use gg_base::NoMemory;
use lr_tables::State;
use md_reader::Sym;
use std::alloc::Global;
use tree_core::{Sort, Tok};

impl<'a> Plan<'a> {
    pub fn add_places(
        &mut self,
        state: State,
        token: Tok,
        wanted: u64,
        by: Begins,
    ) -> Result<(), NoMemory> {
        let more = wanted & !self.places_at(state, token);
        if more == 0 || row_of(state, token) >= self.rows.len() {
            return Ok(());
        }
        if let Some(row) = self.rows.get_mut(row_of(state, token)) {
            row.places |= more;
        }
        self.steps.push(Step::Places {
            state,
            token,
            behinds: more,
            by,
        })?;
        self.events.push(Event::Places(state, token, more))?;
        Ok(())
    }

    // Whether the row's kids were not read before; from now on they are.
    fn begins_to_read(&mut self, row: usize) -> bool {
        match self.rows.get_mut(row) {
            Some(row) => {
                let is_new = !row.is_read;
                row.is_read = true;
                is_new
            }
            None => false,
        }
    }

    pub fn after_places(
        &mut self,
        alloc: Global,
        state: State,
        token: Tok,
        more: u64,
    ) -> Result<(), NoMemory> {
        let over = match self.tables.over(state, Sym::Tok(token)) {
            Some(over) => over,
            None => return Ok(()),
        };
        let kids = token.kids();
        if kids.len() == 0 {
            let list = self.single(token);
            self.settle(alloc, state, token, more, list, Some(over), Settles::Leaf)
        } else if kids.len() == 1 {
            self.only_kid(alloc, state, token, over, kids[0], more)
        } else if kids.len() == 2 {
            self.first_kid(alloc, state, token, over, kids[0], kids[1], more)?;
            self.all_parts(alloc, row_of(state, token), more)
        } else {
            Ok(())
        }
    }

    fn only_kid(
        &mut self,
        alloc: Global,
        state: State,
        token: Tok,
        over: State,
        wanted: Sort,
        more: u64,
    ) -> Result<(), NoMemory> {
        let row = row_of(state, token);
        let set = beginnings(wanted);
        if self.begins_to_read(row) {
            if let Some(readers) = self.readers.get_mut(over.number() as usize) {
                readers.onlys.push(Reader {
                    state,
                    token,
                    begins: set,
                    seconds: 0,
                })?;
            }
        }
        let mut rest = set;
        for _turn in 0..64_u32 {
            let kid = match first_of(rest) {
                Some(kid) => kid,
                None => break,
            };
            self.add_places(over, kid, more, Begins::Only(row))?;
            self.only_sums(alloc, state, token, over, kid, more)?;
            rest = without_first(rest);
        }
        Ok(())
    }

    fn first_kid(
        &mut self,
        alloc: Global,
        state: State,
        token: Tok,
        over: State,
        wanted: Sort,
        second: Sort,
        more: u64,
    ) -> Result<(), NoMemory> {
        let row = row_of(state, token);
        if !self.begins_to_read(row) {
            return Ok(());
        }
        let set = beginnings(wanted);
        let seconds = beginnings(second);
        if let Some(readers) = self.readers.get_mut(over.number() as usize) {
            readers.firsts.push(Reader {
                state,
                token,
                begins: set,
                seconds,
            })?;
        }
        let mut rest = set;
        for _turn in 0..64_u32 {
            let kid = match first_of(rest) {
                Some(kid) => kid,
                None => break,
            };
            self.add_places(over, kid, seconds, Begins::First(row))?;
            self.first_sums(alloc, state, token, over, kid, seconds)?;
            rest = without_first(rest);
        }
        Ok(())
    }
}
