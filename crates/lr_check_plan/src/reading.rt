// What follows from sums of kids.
use crate::masks::{first_of, has, without_first};
use crate::plan::{Event, Plan};
use crate::rows::{Part, Reader, Sources, row_of};
use crate::steps::{Begins, Settles, Source};
use gg_base::NoMemory;
use lr_tables::State;
use std::alloc::Global;
use tree_core::Tok;

impl<'a> Plan<'a> {
    fn entries(&self, row: usize) -> usize {
        match self.rows.get(row) {
            Some(row) => row.entries.len(),
            None => 0,
        }
    }

    // A sum of the only kid.
    fn only_sum(
        &mut self,
        alloc: Global,
        state: State,
        token: Tok,
        kid: Source,
        list: usize,
        behind: Option<State>,
        set: u64,
    ) -> Result<(), NoMemory> {
        if set == 0 {
            return Ok(());
        }
        let below = self.single(token);
        let list = self.lists.join(alloc, list, below)?;
        self.settle(alloc, state, token, set, list, behind, Settles::One(kid))
    }

    pub fn only_sums(
        &mut self,
        alloc: Global,
        state: State,
        token: Tok,
        over: State,
        kid: Tok,
        more: u64,
    ) -> Result<(), NoMemory> {
        let row = row_of(over, kid);
        for entry in 0..self.entries(row) {
            let source = Source { row, entry };
            if let Some(known) = self.known(source) {
                let set = known.sums & more;
                self.only_sum(alloc, state, token, source, known.list, known.behind, set)?;
            }
        }
        Ok(())
    }

    fn find_part(&self, row: usize, list: usize) -> Option<usize> {
        for at in self.rows.get(row)?.parts.iter() {
            if self.parts.get(*at)?.list == list {
                return Some(*at);
            }
        }
        None
    }

    fn part_of(
        &mut self,
        alloc: Global,
        state: State,
        token: Tok,
        list: usize,
        behind: State,
    ) -> Result<usize, NoMemory> {
        let row = row_of(state, token);
        if let Some(part) = self.find_part(row, list) {
            return Ok(part);
        }
        let part = self.parts.len();
        self.parts.push(Part {
            state,
            token,
            list,
            behind,
            seconds: 0,
            firsts: Sources::new(alloc),
        })?;
        if let Some(row) = self.rows.get_mut(row) {
            row.parts.push(part)?;
        }
        if let Some(readers) = self.readers.get_mut(behind.number() as usize) {
            readers.seconds.push(part)?;
        }
        Ok(part)
    }

    // A sum of the first kid, with these tokens behind it.
    fn first_sum(
        &mut self,
        alloc: Global,
        state: State,
        token: Tok,
        kid: Source,
        list: usize,
        behind: Option<State>,
        set: u64,
    ) -> Result<(), NoMemory> {
        let behind = match behind {
            Some(behind) => behind,
            None => return Ok(()),
        };
        if set == 0 {
            return Ok(());
        }
        let below = self.single(token);
        let list = self.lists.join(alloc, list, below)?;
        let at = self.part_of(alloc, state, token, list, behind)?;
        let seconds = match self.parts.get(at) {
            Some(part) => part.seconds,
            None => return Ok(()),
        };
        let more = set & !seconds;
        if more == 0 {
            return Ok(());
        }
        let mut rest = more;
        for _turn in 0..64_u32 {
            let next = match first_of(rest) {
                Some(next) => next,
                None => break,
            };
            if let Some(part) = self.parts.get_mut(at) {
                part.firsts.put(next, kid)?;
            }
            rest = without_first(rest);
        }
        if let Some(part) = self.parts.get_mut(at) {
            part.seconds = seconds | more;
        }
        self.events.push(Event::Seconds(at, more))?;
        Ok(())
    }

    pub fn first_sums(
        &mut self,
        alloc: Global,
        state: State,
        token: Tok,
        over: State,
        kid: Tok,
        seconds: u64,
    ) -> Result<(), NoMemory> {
        let row = row_of(over, kid);
        for entry in 0..self.entries(row) {
            let source = Source { row, entry };
            if let Some(known) = self.known(source) {
                let set = known.sums & seconds;
                self.first_sum(alloc, state, token, source, known.list, known.behind, set)?;
            }
        }
        Ok(())
    }

    // What follows from the second kid of a part, which begins with the token, with these behind.
    fn second(
        &mut self,
        alloc: Global,
        part: usize,
        next: Tok,
        behind: u64,
    ) -> Result<(), NoMemory> {
        let (state, token, list, over, first) = match self.parts.get(part) {
            Some(part) => (
                part.state,
                part.token,
                part.list,
                part.behind,
                part.firsts.get(next),
            ),
            None => return Ok(()),
        };
        let parent = row_of(state, token);
        self.add_places(over, next, behind, Begins::Second(parent, first))?;
        let row = row_of(over, next);
        for entry in 0..self.entries(row) {
            let source = Source { row, entry };
            if let Some(known) = self.known(source) {
                let set = known.sums & behind;
                if set != 0 {
                    let whole = self.lists.join(alloc, known.list, list)?;
                    let by = Settles::Two(first, source);
                    self.settle(alloc, state, token, set, whole, known.behind, by)?;
                }
            }
        }
        Ok(())
    }

    // The same for each token of the set.
    fn seconds(
        &mut self,
        alloc: Global,
        part: usize,
        set: u64,
        behind: u64,
    ) -> Result<(), NoMemory> {
        let mut rest = set;
        for _turn in 0..64_u32 {
            let next = match first_of(rest) {
                Some(next) => next,
                None => break,
            };
            self.second(alloc, part, next, behind)?;
            rest = without_first(rest);
        }
        Ok(())
    }

    pub fn after_seconds(&mut self, alloc: Global, part: usize, more: u64) -> Result<(), NoMemory> {
        let behind = match self.parts.get(part) {
            Some(part) => self.places_at(part.state, part.token),
            None => return Ok(()),
        };
        self.seconds(alloc, part, more, behind)
    }

    // The number of a row's part.
    fn part_at(&self, row: usize, at: usize) -> Option<(usize, u64)> {
        let part = *self.rows.get(row)?.parts.get(at)?;
        Some((part, self.parts.get(part)?.seconds))
    }

    pub fn all_parts(&mut self, alloc: Global, row: usize, more: u64) -> Result<(), NoMemory> {
        for at in 0..usize::MAX {
            let (part, seconds) = match self.part_at(row, at) {
                Some(part) => part,
                None => return Ok(()),
            };
            self.seconds(alloc, part, seconds, more)?;
        }
        Ok(())
    }

    fn only_reader(&self, over: State, at: usize) -> Option<Reader> {
        let reader = self.readers.get(over.number() as usize)?.onlys.get(at)?;
        Some(*reader)
    }

    fn first_reader(&self, over: State, at: usize) -> Option<Reader> {
        let reader = self.readers.get(over.number() as usize)?.firsts.get(at)?;
        Some(*reader)
    }

    fn second_reader(&self, over: State, at: usize) -> Option<usize> {
        let reader = self.readers.get(over.number() as usize)?.seconds.get(at)?;
        Some(*reader)
    }

    // The new sums of a list of the state and the token, read by each row and part that has it as a kid.
    pub fn read(
        &mut self,
        alloc: Global,
        state: State,
        token: Tok,
        kid: Source,
        list: usize,
        behind: State,
        sums: u64,
    ) -> Result<(), NoMemory> {
        self.read_by_onlys(alloc, state, token, kid, list, behind, sums)?;
        self.read_by_firsts(alloc, state, token, kid, list, behind, sums)?;
        for at in 0..usize::MAX {
            let part = match self.second_reader(state, at) {
                Some(part) => part,
                None => break,
            };
            self.read_second(alloc, part, token, kid, list, behind, sums)?;
        }
        Ok(())
    }

    fn read_by_onlys(
        &mut self,
        alloc: Global,
        state: State,
        token: Tok,
        kid: Source,
        list: usize,
        behind: State,
        sums: u64,
    ) -> Result<(), NoMemory> {
        for at in 0..usize::MAX {
            let reader = match self.only_reader(state, at) {
                Some(reader) => reader,
                None => break,
            };
            if has(reader.begins, token) {
                let (above, over) = (reader.state, reader.token);
                let set = sums & self.places_at(above, over);
                self.only_sum(alloc, above, over, kid, list, Some(behind), set)?;
            }
        }
        Ok(())
    }

    fn read_by_firsts(
        &mut self,
        alloc: Global,
        state: State,
        token: Tok,
        kid: Source,
        list: usize,
        behind: State,
        sums: u64,
    ) -> Result<(), NoMemory> {
        for at in 0..usize::MAX {
            let reader = match self.first_reader(state, at) {
                Some(reader) => reader,
                None => break,
            };
            if has(reader.begins, token) {
                let (above, over) = (reader.state, reader.token);
                let set = sums & reader.seconds;
                self.first_sum(alloc, above, over, kid, list, Some(behind), set)?;
            }
        }
        Ok(())
    }

    fn read_second(
        &mut self,
        alloc: Global,
        part: usize,
        token: Tok,
        kid: Source,
        list: usize,
        behind: State,
        sums: u64,
    ) -> Result<(), NoMemory> {
        let (above, over, lower, seconds, first) = match self.parts.get(part) {
            Some(part) => (
                part.state,
                part.token,
                part.list,
                part.seconds,
                part.firsts.get(token),
            ),
            None => return Ok(()),
        };
        if !has(seconds, token) {
            return Ok(());
        }
        let set = sums & self.places_at(above, over);
        if set == 0 {
            return Ok(());
        }
        let whole = self.lists.join(alloc, list, lower)?;
        self.settle(
            alloc,
            above,
            over,
            set,
            whole,
            Some(behind),
            Settles::Two(first, kid),
        )
    }
}
