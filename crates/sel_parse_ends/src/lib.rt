//! How selections end. The function does nothing; its clauses are laws.
#![tactic(auto)]

ghost use Rattle.sel_parse_ends.specs.Claims.{NeverBlocks, SelectionsEnd};

use sel_target::Target;

/// By a description that was checked for blocking and looping a selection neither blocks nor loops; and where the frame has room, it ends
/// with a code, unless a register is due that no entry can give up.
pub fn selections_end<T: Target>(_target: &T)
    ensures blocks { NeverBlocks T.meaning }
    ensures ends { SelectionsEnd T.meaning }
{}
