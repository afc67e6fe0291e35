//! What typing guarantees of every program, as the layers above rely on it: definitions alone.
#![tactic(auto)]
