// The tree of a piece of code.

use crate::front::Front;
use crate::operands::Event;
use crate::state::State;
use gg_base::Name;
use vax_machine::function::Test;

/// Where a piece of code stops to lead on straight.
#[derive(Drop)]
pub enum Stop {
    /// At a cut at this place; whether an instruction was done before.
    Arrives(bool, usize),
    /// At a branch to this place, behind which comes that place.
    Asks(Test, usize, usize),
    /// At a call with so many arguments, of this function, which comes back to this place.
    Calls(u32, Name, usize),
    /// At a return, behind which comes this place.
    Returns(usize),
}

/// What an instruction does: it leads on to a place, or the piece stops there.
#[derive(Drop)]
pub enum Step {
    On(usize),
    Halt(Stop),
}

/// What a piece of code does before it stops, with so many instructions left of those that were allowed.
#[derive(Drop)]
pub struct Straight {
    pub front: Front,
    pub left: u32,
    pub stop: Stop,
}

/// What a piece of code does: events in their order, and then a question with what comes where its answer is yes, or no; a cut; a call;
/// or a return.
#[derive(Drop)]
pub enum Tree {
    Asks(Vec<Event>, Test, State, Box<Tree>, Box<Tree>),
    Arrives(Vec<Event>, bool, usize, State),
    Calls(Vec<Event>, u32, Name, usize, State),
    Returns(Vec<Event>, usize, State),
}
