//! What effects make of a state, and that effects of one normal form make the same of it. Each function does nothing; its clause is
//! the law.
#![tactic(auto)]

ghost use Rattle.sel_terms_meaning.specs.Alike.{NormKeepsEffects, ShownIsAlike, WantedIsNarrow};

pub use sel_terms::{Class, Effect, Kind, Line, Rule};

/// An effect and its normal form under a rule's facts do the same and read the same memory.
pub fn norm_keeps_effects()
    ensures { NormKeepsEffects }
{}

/// Two effects of one normal form do the same and read the same memory.
pub fn shown_is_alike()
    ensures { ShownIsAlike }
{}

/// The constants of a pattern's effect are longwords.
pub fn wanted_is_narrow()
    ensures { WantedIsNarrow }
{}
