//! Normal forms are settled: no equation changes any part of one. Each function does nothing; its clause is the law.
#![tactic(auto)]

ghost use Rattle.term_core_settled.specs.Claim.{NormalIsSettled, NormIsSettled};

/// From a normal term the equations, used at any part and one after the other, reach that term alone.
pub fn normal_is_settled()
    ensures { NormalIsSettled }
{}

/// From a normal form they reach that form alone, where each symbol's least one that is spelled like it is so for itself.
pub fn norm_is_settled()
    ensures { NormIsSettled }
{}
