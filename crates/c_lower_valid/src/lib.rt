//! The law of valid trees: the tree program of every program that typing accepts is valid.
#![tactic(auto)]

ghost use Rattle.c_lower_valid.specs.Claim.{LoweredIsValid};

/// The law: the trees of a program that typing accepts are valid. It does nothing.
pub fn lowered_is_valid()
    ensures { LoweredIsValid }
{}
