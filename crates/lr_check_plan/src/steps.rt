// Steps: how places and lists that settle are found, for sets of tokens behind.
use lr_tables::State;
use tree_core::Tok;

/// A list of a row, by its number there. Rows stand by state and token: there are 40 tokens.
#[derive(Clone, Copy, Debug)]
pub struct Source {
    pub row: usize,
    pub entry: usize,
}

/// From what places follow: the whole tree; the only kid of a row's places, with the same tokens behind; the first of two kids of a
/// row's places; the second of the two, behind a list of the first.
#[derive(Clone, Copy, Debug)]
pub enum Begins {
    Whole,
    Only(usize),
    First(usize),
    Second(usize, Source),
}

/// How a list settles: the token has no kid, one, or two, which are such lists; or such a whole list becomes the class.
#[derive(Clone, Copy, Debug)]
pub enum Settles {
    Leaf,
    One(Source),
    Two(Source, Source),
    Reduced(Source, u16),
}

/// At a state and a token, with each of the tokens behind: places, or a list that settles, by its number in the row.
#[derive(Clone, Copy, Debug)]
pub enum Step {
    Places {
        state: State,
        token: Tok,
        behinds: u64,
        by: Begins,
    },
    Settled {
        state: State,
        token: Tok,
        entry: usize,
        behinds: u64,
        by: Settles,
    },
}
