// What stands at a state and a token, for all tokens behind.
use crate::steps::Source;
use gg_base::NoMemory;
use lr_tables::{State, number};
use std::alloc::Global;
use tree_core::Tok;

/// Sources by token.
#[derive(Drop)]
pub struct Sources {
    held: Vec<Source>,
}

impl Sources {
    pub fn new(alloc: Global) -> Self {
        Sources {
            held: Vec::new(alloc),
        }
    }

    pub fn get(&self, token: Tok) -> Source {
        match self.held.get(number(token)) {
            Some(source) => *source,
            None => Source { row: 0, entry: 0 },
        }
    }

    pub fn put(&mut self, token: Tok, value: Source) -> Result<(), NoMemory> {
        if self.held.len() == 0 {
            self.held.resize(40, Source { row: 0, entry: 0 })?;
        }
        if let Some(held) = self.held.get_mut(number(token)) {
            *held = value;
        }
        Ok(())
    }
}

/// A list that settles, with the tokens behind at which it does and those at which it is a sum, and the
/// settlings' numbers.
#[derive(Drop)]
pub struct Entry {
    pub list: usize,
    pub behind: Option<State>,
    pub settled: u64,
    pub sums: u64,
}

/// The first of a row's two kids, as a list behind the row's token; the tokens with which the second may
/// begin, and for each the number of a settling of the first.
#[derive(Drop)]
pub struct Part {
    pub state: State,
    pub token: Tok,
    pub list: usize,
    pub behind: State,
    pub seconds: u64,
    pub firsts: Sources,
}

/// A state and a token.
#[derive(Drop)]
pub struct Row {
    pub places: u64,
    pub entries: Vec<Entry>,
    pub parts: Vec<usize>,
    pub is_read: bool,
}

/// A reduction that some answers take: by a right side of so many symbols, to the class, at the tokens.
#[derive(Clone, Copy, Debug)]
pub struct Reduction {
    pub long: usize,
    pub class: u16,
    pub tokens: u64,
}

/// What some answers take at a state: the tokens that are shifted, and the reductions.
#[derive(Drop)]
pub struct Free {
    pub shifts: u64,
    pub reductions: Vec<Reduction>,
}

/// Where a row stands: there are 40 tokens.
pub fn row_of(state: State, token: Tok) -> usize {
    state.number() as usize * 40 + number(token)
}

/// A row whose only or first kid begins in a state, with the tokens that may begin the kid and, behind a
/// first kid, the second.
#[derive(Clone, Copy, Debug)]
pub struct Reader {
    pub state: State,
    pub token: Tok,
    pub begins: u64,
    pub seconds: u64,
}

/// Who reads the sums that begin in a state: rows whose only kid or first kid begins there, and parts
/// whose second kid does.
#[derive(Drop)]
pub struct Readers {
    pub onlys: Vec<Reader>,
    pub firsts: Vec<Reader>,
    pub seconds: Vec<usize>,
}

impl Row {
    pub fn new(alloc: Global) -> Self {
        Row {
            places: 0,
            entries: Vec::new(alloc),
            parts: Vec::new(alloc),
            is_read: false,
        }
    }
}

impl Readers {
    pub fn new(alloc: Global) -> Self {
        Readers {
            onlys: Vec::new(alloc),
            firsts: Vec::new(alloc),
            seconds: Vec::new(alloc),
        }
    }
}
