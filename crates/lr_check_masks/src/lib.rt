//! Whether the sets of a description's tables have no fault, and how many sums, as far as sets of tokens show it.
#![tactic(auto)]

mod showing;

pub use showing::mask_check;
