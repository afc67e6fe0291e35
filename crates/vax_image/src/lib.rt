//! The binary image of a code, with the shortest branches: written and read.
#![tactic(auto)]

pub mod decoding;
pub mod encoding;
pub mod fault;

pub use decoding::decode;
pub use encoding::encode;
pub use fault::ImageFault;
pub use vax_image_reading::DecodeFault;
