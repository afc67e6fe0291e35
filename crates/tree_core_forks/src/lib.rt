//! Forks of trees, which bound what code for a tree must hold at once: definitions alone.
#![tactic(auto)]
