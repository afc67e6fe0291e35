//! The law of accepted trees: where the sets of the tables have no fault, the parse of every typed tree
//! over the description's rules ends with accepting.
#![tactic(auto)]

ghost use Rattle.lr_check_law.specs.Accepting.{EveryTreeIsAccepted};

/// The law: whatever the answers of its nodes, the parse of a typed statement accepts. It does nothing.
pub fn every_tree_is_accepted()
    ensures { EveryTreeIsAccepted }
{}
