//! The states of a description's tables are its item sets. The function does nothing; its clause is the law.
#![tactic(auto)]

ghost use Rattle.lr_tables_states.specs.States.{StatesAreItemSets};

/// Each state has a stack that leads to it, each stack with a valid item leads to a state, and to one state exactly where the items
/// are the same.
pub fn states_are_item_sets()
    ensures { StatesAreItemSets }
{}
