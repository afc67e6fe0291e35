// Rows: what is found at a state and a token.
use lr_tables::State;
use tree_core::Tok;

/// A list by its number, the state behind it, and the tokens behind with which it settles, and with which it is a sum.
#[derive(Clone, Copy, Debug)]
pub struct Line {
    pub list: usize,
    pub behind: Option<State>,
    pub settled: u64,
    pub sums: u64,
}

/// What stands at a state and a token: the tokens behind of its places, and the lists.
#[derive(Drop)]
pub struct Row {
    pub state: State,
    pub token: Tok,
    pub places: u64,
    pub lines: Vec<Line>,
}
