// What commands that read a file have alike: the file read whole and by its form, the input, the run or the translation of what was
// read, and the lines and statuses of what is refused.
#![tactic(auto)]

pub mod forms;
pub mod run;
pub mod stages;
pub mod translate;

pub use forms::{FileForm, Refusal, Runs};
pub use run::run_file;
pub use stages::{read_file, read_input, write_out};
pub use translate::{Translates, translate_file};
