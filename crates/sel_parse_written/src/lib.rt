//! Each instruction of a selection can be written. The function does nothing; its clauses are laws.
#![tactic(auto)]

ghost use Rattle.sel_parse_written.specs.Claims.{SelectionsAreWritten, SelectionsPass, SelectionsUseLowWords};

use sel_target::Target;

/// Each instruction of the code that `select` computes for a typed statement tree passes what every line of the description passes as it
/// is written; so it is one that can be written. The frame's words that the code uses are ones that operands name.
pub fn selections_are_written<T: Target>(_target: &T)
    ensures passes { SelectionsPass T.meaning }
    ensures written { SelectionsAreWritten T.meaning }
    ensures low { SelectionsUseLowWords T.meaning }
{}
