// Steps as items of `lr_check_found`: one for each token behind, numbered as the store numbers them.
use crate::masks::{first_of, without_first};
use crate::rows::row_of;
use crate::steps::{Begins, Settles, Source, Step};
use gg_base::NoMemory;
use lr_check_found::{How, Item, Origin, Place};
use lr_tables::{State, number};
use std::alloc::Global;
use tree_core::{Tok, tokens};

// Numbers by token.
#[derive(Drop)]
struct Numbers {
    held: Vec<usize>,
}

impl Numbers {
    fn new(alloc: Global) -> Self {
        Numbers {
            held: Vec::new(alloc),
        }
    }

    fn get(&self, token: Tok) -> usize {
        match self.held.get(number(token)) {
            Some(number) => *number,
            None => 0,
        }
    }

    fn put(&mut self, token: Tok, value: usize) -> Result<(), NoMemory> {
        if self.held.len() == 0 {
            self.held.resize(40, 0)?;
        }
        if let Some(held) = self.held.get_mut(number(token)) {
            *held = value;
        }
        Ok(())
    }
}

// The numbers of a row's places, the first of them, and the numbers of each of its lists.
#[derive(Drop)]
struct Numbered {
    places: Numbers,
    first: Option<usize>,
    lists: Vec<Numbers>,
}

// The items up to now, and their numbers.
#[derive(Drop)]
struct Items {
    items: Vec<Item>,
    rows: Vec<Numbered>,
    places: usize,
    settlings: usize,
}

// The token of the row.
fn token_of(row: usize) -> Tok {
    match tokens().get(row % 40) {
        Some(token) => *token,
        None => Tok::End,
    }
}

impl Items {
    fn new(alloc: Global, states: u32) -> Result<Self, NoMemory> {
        let mut rows = Vec::new(alloc);
        for _state in 0..states {
            for _token in 0..40_usize {
                rows.push(Numbered {
                    places: Numbers::new(alloc),
                    first: None,
                    lists: Vec::new(alloc),
                })?;
            }
        }
        Ok(Items {
            items: Vec::new(alloc),
            rows,
            places: 0,
            settlings: 0,
        })
    }

    // The number of a row's place.
    fn place(&self, row: usize, behind: Tok) -> usize {
        match self.rows.get(row) {
            Some(row) => row.places.get(behind),
            None => 0,
        }
    }

    // The number of a row's first place.
    fn first(&self, row: usize) -> usize {
        match self.rows.get(row) {
            Some(row) => row.first.unwrap_or(0),
            None => 0,
        }
    }

    // The number of a settling.
    fn settling(&self, source: Source, behind: Tok) -> usize {
        match self.rows.get(source.row) {
            Some(row) => match row.lists.get(source.entry) {
                Some(numbers) => numbers.get(behind),
                None => 0,
            },
            None => 0,
        }
    }

    fn origin(&self, token: Tok, behind: Tok, by: Begins) -> Origin {
        match by {
            Begins::Whole => Origin::Root,
            Begins::Only(row) => Origin::First(self.place(row, behind)),
            Begins::First(row) => Origin::First(self.first(row)),
            Begins::Second(row, first) => {
                Origin::Second(self.place(row, behind), self.settling(first, token))
            }
        }
    }

    fn how(&self, behind: Tok, by: Settles) -> How {
        match by {
            Settles::Leaf => How::Leaf,
            Settles::One(kid) => How::One(self.settling(kid, behind)),
            Settles::Two(first, second) => How::Two(
                self.settling(first, token_of(second.row)),
                self.settling(second, behind),
            ),
            Settles::Reduced(whole, class) => How::Reduced(self.settling(whole, behind), class),
        }
    }

    fn add_place(
        &mut self,
        state: State,
        token: Tok,
        behind: Tok,
        by: Begins,
    ) -> Result<(), NoMemory> {
        let place = Place {
            state,
            token,
            behind,
        };
        let origin = self.origin(token, behind, by);
        self.items.push(Item::Place(place, origin))?;
        let number = self.places;
        self.places = number.wrapping_add(1);
        if let Some(row) = self.rows.get_mut(row_of(state, token)) {
            row.places.put(behind, number)?;
            if row.first.is_none() {
                row.first = Some(number);
            }
        }
        Ok(())
    }

    fn add_settling(
        &mut self,
        alloc: Global,
        source: Source,
        behind: Tok,
        by: Settles,
    ) -> Result<(), NoMemory> {
        let how = self.how(behind, by);
        let place = self.place(source.row, behind);
        self.items.push(Item::Settling(place, how))?;
        let number = self.settlings;
        self.settlings = number.wrapping_add(1);
        if let Some(row) = self.rows.get_mut(source.row) {
            if source.entry == row.lists.len() {
                row.lists.push(Numbers::new(alloc))?;
            }
            if let Some(numbers) = row.lists.get_mut(source.entry) {
                numbers.put(behind, number)?;
            }
        }
        Ok(())
    }

    fn add_places(
        &mut self,
        state: State,
        token: Tok,
        behinds: u64,
        by: Begins,
    ) -> Result<(), NoMemory> {
        let mut rest = behinds;
        for _turn in 0..64_u32 {
            let behind = match first_of(rest) {
                Some(behind) => behind,
                None => break,
            };
            self.add_place(state, token, behind, by)?;
            rest = without_first(rest);
        }
        Ok(())
    }

    fn add_settlings(
        &mut self,
        alloc: Global,
        source: Source,
        behinds: u64,
        by: Settles,
    ) -> Result<(), NoMemory> {
        let mut rest = behinds;
        for _turn in 0..64_u32 {
            let behind = match first_of(rest) {
                Some(behind) => behind,
                None => break,
            };
            self.add_settling(alloc, source, behind, by)?;
            rest = without_first(rest);
        }
        Ok(())
    }

    fn add(&mut self, alloc: Global, step: Step) -> Result<(), NoMemory> {
        match step {
            Step::Places {
                state,
                token,
                behinds,
                by,
            } => self.add_places(state, token, behinds, by),
            Step::Settled {
                state,
                token,
                entry,
                behinds,
                by,
            } => {
                let row = row_of(state, token);
                self.add_settlings(alloc, Source { row, entry }, behinds, by)
            }
        }
    }
}

/// The items of the steps, of tables of so many states.
pub fn items_of(alloc: Global, states: u32, steps: &[Step]) -> Result<Vec<Item>, NoMemory> {
    let mut items = Items::new(alloc, states)?;
    for step in steps {
        items.add(alloc, *step)?;
    }
    Ok(items.items)
}
