//! What is found of the least sets by sets of tokens: a store that grows by steps, all of which is in the sets.
#![tactic(auto)]

mod adding;
mod count;
mod held;
mod made;
mod sets;
mod store;
mod storing;

pub use store::Store;
pub use storing::stored;
