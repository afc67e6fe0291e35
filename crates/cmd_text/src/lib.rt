// The command `text I`: the assembly text of a binary image's code.
#![tactic(auto)]

pub mod image;
pub mod text;

pub use text::write_text;

#[cfg(test)]
mod tests;
