//! The selection as it is computed is the selection of which the laws speak. The function does nothing; its clauses are laws.
#![tactic(auto)]

ghost use Rattle.sel_parse_joined.specs.Claims.{SameCode, SameFull};

use sel_target::Target;

/// Where the code of `select` gives a typed statement tree a code, the tree has that code by the definition over which its effect is
/// proved; and where the one finds the frame full, the other does.
pub fn selections_are_one<T: Target>(_target: &T)
    ensures code { SameCode T.meaning }
    ensures full { SameFull T.meaning }
{}
