//! Places and sums: where a subtree may begin in a parse, and by which symbols it may be replaced. Two
//! least sets decide whether a tree can block the parser or turn for ever.
#![tactic(auto)]

ghost use Rattle.lr_check_sets.specs.Loose.{WholeIsEnough};
ghost use Rattle.lr_check_sets.specs.Claims.{WholeTreesEnd, EveryTreeAccepts, EveryTreeEndsWithin, EveryFaultIsReal};
ghost use Rattle.lr_check_sets.specs.Samples.{EverySumHasItsTree};
ghost use Rattle.lr_check_sets.specs.Exact.{TablesMeetLaws};
ghost use Rattle.lr_check_sets.specs.Closed.{ClosedIsEnough};

/// A law: reductions of parts of a list change neither set, so that those of whole lists are enough. It
/// does nothing.
pub fn whole_is_enough()
    ensures { WholeIsEnough }
{}

/// A law: without faults the parse of every typed tree ends, whatever its questions answer. It does
/// nothing.
pub fn whole_trees_end()
    ensures { WholeTreesEnd }
{}

/// A law: without faults the parse of every typed tree with its answers ends with accepting. It does
/// nothing.
pub fn every_tree_accepts()
    ensures { EveryTreeAccepts }
{}

/// A law: without faults every typed tree is accepted within its tokens, the end counted, times the
/// classes and one. It does nothing.
pub fn every_tree_ends_within()
    ensures { EveryTreeEndsWithin }
{}

/// A law: each fault is met in the parse of a typed tree under some answers. It does nothing.
pub fn every_fault_is_real()
    ensures { EveryFaultIsReal }
{}

/// A law: each sum has a tree with answers of its own, whatever stands below it. It does nothing.
pub fn every_sum_has_its_tree()
    ensures { EverySumHasItsTree }
{}

/// A law: the automaton of a description's tables is that of its rules, as the other laws ask. It does
/// nothing.
pub fn tables_meet_laws()
    ensures { TablesMeetLaws }
{}

/// A law: predicates that are closed under the rules of the sets, and of which no fault is true, show that
/// the automaton has no fault. It does nothing.
pub fn closed_is_enough()
    ensures { ClosedIsEnough }
{}
