//! Whether each function of a code names only registers of its entry mask.
#![tactic(auto)]

pub mod keeping;
pub mod labels;
pub mod masks;

pub use keeping::keeps_masks;
