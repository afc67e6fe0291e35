// Places of two codes that stand to each other.

use crate::fact::Fact;

/// A place of the first code that stands to a place of the second, with what is known there, and a number that falls where only one of
/// the two goes on. A certificate is a list of cuts, in the order of their first places, and then of their second ones.
#[derive(Drop)]
pub struct Cut {
    pub rank: u32,
    pub first: usize,
    pub second: usize,
    pub facts: Vec<Fact>,
}
