//! Templates of L32: how their operands are spelled, and where a frame's longwords and arguments stand.
#![tactic(auto)]

mod form;
pub mod home;

pub use form::Form;
