//! The data area of a program, item by item.
#![tactic(auto)]

pub mod area;
pub mod spelling;

pub use area::area_items;
