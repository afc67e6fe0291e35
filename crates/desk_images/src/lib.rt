//! Why bytes are no binary image.
#![tactic(auto)]

pub mod images;

pub use images::put_why_image;
