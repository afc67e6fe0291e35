//! The least sets of places, settlings and sums are closed under the rules by which they are made.
#![tactic(auto)]

ghost use Rattle.lr_check_least.specs.Least.{LeastAreClosed};

/// A law: the least sets pass the tests of closed predicates. It does nothing.
pub fn least_sets_are_closed()
    ensures { LeastAreClosed }
{}
