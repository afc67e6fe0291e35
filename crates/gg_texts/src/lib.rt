//! The descriptions that come with the program: the VAX-11, a small part of it, and L32.
#![tactic(auto)]

mod l32;
mod small;
mod vax;
mod vax1;

pub use l32::L32_GG;
pub use small::M_GG;
pub use vax::VAX_GG;
pub use vax1::VAX1_GG;
