//! What is known of the code that is selected of a program, beside that it keeps the program: where its run begins, that its calls
//! keep registers, that it is the computed one and one alone, and within how many instructions it ends.
#![tactic(auto)]

pub mod calls;
pub mod lengths;
pub mod selection;
pub mod starts;
pub mod unity;
