//! Whether two codes are accepted as a pair, by a certificate.
#![tactic(auto)]

mod area;
pub mod pairs;
mod shown;
mod side;
