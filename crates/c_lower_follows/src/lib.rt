//! The law of lowering: on every input the trees of a program do what the program does.
#![tactic(auto)]

ghost use Rattle.c_lower_follows.specs.Claim.{LoweringFollows};

/// The law: the trees of a program that typing accepts follow it. It does nothing.
#[tactic(auto, using(crate::proofs::Law::lowering_follows))]
pub fn lowering_follows()
    ensures { LoweringFollows }
{}
