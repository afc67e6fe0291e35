//! What operands, instructions and templates mean on L32, as a target's one record of meanings: definitions alone.
#![tactic(auto)]
