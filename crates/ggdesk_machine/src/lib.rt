// Rows about assembly texts and the machine: how a text is read and written, and what its instructions do. Each module answers the rows of
// one subject, or helps it.
#![tactic(auto)]

pub mod assembly;
pub mod machine;
pub mod running;
pub mod templates;
