// Rows about binary images: which image a text has, and which text an image. The module `images` answers them; the others help it.
#![tactic(auto)]

pub mod digits;
pub mod images;
pub mod rows;
