//! How deep the terms of effects nest. Each function does nothing; its clause is the law.
#![tactic(auto)]

ghost use Rattle.sel_terms_depth.specs.Claim.{NormIsShallow, PatternsAreShallow};

/// The normal form of a term nests at most twice as deep as the term.
pub fn norm_is_shallow()
    ensures { NormIsShallow }
{}

/// The terms of a pattern's effect nest at most three times as deep as the pattern has symbols, and one deeper.
pub fn patterns_are_shallow()
    ensures { PatternsAreShallow }
{}
