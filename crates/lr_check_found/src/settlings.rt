// The lists of symbols that settle at places.
use crate::places::{Origin, Place};
use lr_tables::State;

/// How a list came about: the token has no kid, one, or two, which settled so; or the whole list of a
/// settling became the class. Settlings stand by their numbers.
#[derive(Clone, Copy, Debug)]
pub enum How {
    Leaf,
    One(usize),
    Two(usize, usize),
    Reduced(usize, u16),
}

/// A list, by its number, that stands for the subtree of the place with a number when all kids are in;
/// the state behind it, if it leads to one; whether it is a sum: some choice leads out of it.
#[derive(Clone, Copy, Debug)]
pub struct Settling {
    pub place: usize,
    pub list: usize,
    pub behind: Option<State>,
    pub is_sum: bool,
    pub how: How,
}

/// What is to be added: a place, or a list that settles at the place with a number.
#[derive(Clone, Copy, Debug)]
pub enum Item {
    Place(Place, Origin),
    Settling(usize, How),
}
