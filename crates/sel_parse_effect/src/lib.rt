//! Selected code has the tree's effect. The function does nothing; its clause is the law.
#![tactic(auto)]

ghost use Rattle.sel_parse_effect.specs.Claims.{SelectedHasEffect};

use sel_target::Target;

/// The code of a typed statement tree does what the tree does, over any target that keeps the laws.
pub fn selected_has_effect<T: Target>(_target: &T)
    ensures { SelectedHasEffect T.meaning }
{}
