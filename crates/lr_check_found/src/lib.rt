//! What is found of places and sums: each place and each list of symbols with how it was found, so that
//! all of it is in the least sets of `lr_check_sets`.
#![tactic(auto)]

mod adding;
mod choices;
mod found;
mod lists;
mod places;
mod settlings;
mod table;

pub use adding::Stop;
pub use choices::{Leads, Seen, can_block, candidate, free_choices};
pub use found::Found;
pub use lists::Lists;
pub use places::{Origin, Place, may};
pub use settlings::{How, Item, Settling};
