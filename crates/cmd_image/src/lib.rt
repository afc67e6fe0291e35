// The command `image A`: the binary image of an assembly text's code.
#![tactic(auto)]

pub mod image;
pub mod text;

pub use image::write_image;

#[cfg(test)]
mod tests;
