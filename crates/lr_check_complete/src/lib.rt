//! All places and sums of a description's tables: rounds add what follows from what was found, until
//! nothing does.
#![tactic(auto)]

mod firsts;
mod fitting;
mod frames;
mod kids;
mod lacking;
mod look;
mod looking;
mod masks;
mod pairs;
mod reductions;
mod rounds;
mod sheet;
mod shown;
mod two;
mod window;

pub use rounds::complete;
