//! How many frame words a selection uses. The function does nothing; its clauses are laws.
#![tactic(auto)]

ghost use Rattle.sel_parse_slots.specs.Claims.{HasRoom, UsesFewSlots};

use sel_target::Target;

/// The code of a typed statement tree uses at most one slot more than the tree has tokens with two kids, so the frame isn't full where
/// operands name that many.
pub fn selections_use_few_slots<T: Target>(_target: &T)
    ensures few { UsesFewSlots T.meaning }
    ensures room { HasRoom T.meaning }
{}
