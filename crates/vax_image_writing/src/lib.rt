//! Writing a binary image: the lengths of a code's items, its sections, and the bytes of the whole.
#![tactic(auto)]

pub mod bytes;
pub mod image;
pub mod instrs;
pub mod items;
pub mod lengths;
pub mod operands;
pub mod plan;
pub mod section;
pub mod text;

pub use image::image_of;
pub use lengths::pieces_of;
pub use plan::Plan;
pub use text::marks_in;
