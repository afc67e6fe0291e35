//! Trees that are pure but for their root, and how a typed program is lowered to them: definitions alone.
#![tactic(auto)]

ghost use Rattle.c_lower_scheme.specs.Examples.{Examples};

/// The law: what some phrases are lowered to. It does nothing.
#[tactic(auto, using(crate::proofs::Law::worked))]
pub fn phrases_lower()
    ensures { Examples }
{}
