//! Templates of the VAX: how their lines are read, and what the lines do to symbols in place of numbers.
#![tactic(auto)]

mod form;
mod setting;

pub use form::{Base, Form, Mark, Number};
pub use setting::{Hole, Opening, Own, Setting};
