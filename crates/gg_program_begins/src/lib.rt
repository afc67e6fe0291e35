//! The VAX has a state in which the run of each program begins that can be written for it.
#![tactic(auto)]

ghost use Rattle.gg_program_begins.specs.Claims.{EachProgramBegins, EachTypedProgramBegins};

/// The law: whatever the program, if it can be written for the VAX, some state stands for the beginning of the run of its trees, with room
/// for a tree. It does nothing.
pub fn each_program_begins()
    ensures { EachProgramBegins }
{}

/// The law: so it is with the trees of each typed program whose functions fit their frames. It does nothing.
pub fn each_typed_program_begins()
    ensures { EachTypedProgramBegins }
{}
