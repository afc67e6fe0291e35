//! What operands, instructions and templates mean on the VAX, as a target's one record of meanings: definitions alone.
#![tactic(auto)]
