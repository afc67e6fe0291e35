//! The declarations of C variables: their types, their objects and what these hold at first.
#![tactic(auto)]

pub mod automatic;
pub mod declaration;
pub mod environment;
pub mod form;
pub mod initialiser;
pub mod objects;
pub mod room;

pub use declaration::locals;
pub use environment::Environment;
pub use objects::object;
pub use room::Room;
