// What every layer shares: sizes, relations, 32-bit arithmetic, places, limits, fronts of bytes, and how runs are spoken of.
#![tactic(auto)]

pub mod arithmetic;
pub mod bytes;
pub mod fronts;
pub mod laws;
pub mod limits;
pub mod list;
pub mod little_endian;
pub mod memory;
pub mod place;
pub mod relation;
pub mod run;
pub mod size;

pub use arithmetic as w32;
pub use bytes::{Bytes, Name, Text, put_decimal, put_signed};
pub use list::ListOf;
pub use memory::{NoMemory, number_of};
pub use place::Place;
pub use relation::Rel;
pub use run::{Break, End, Finish, SourceTurn};
pub use size::Size;

#[cfg(test)]
mod tests;
