// What a run came to.
use gg_base::End;

/// What a run came to, in memory.
#[derive(Drop)]
pub struct Tally {
    /// The bytes that it wrote.
    pub output: Vec<u8>,
    /// Its end.
    pub end: End,
    /// How many moments it counted before its end: turns of loops and calls of a source, instructions of a code.
    pub number: u64,
}
