//! The typing of expressions, each construct by its row of the table.
#![tactic(auto)]

ghost use Rattle.c_typed_table.specs.Table.{TypesAreRows};

/// The law: what an expression is typed as by the rows is what typing answers, and so with its first fault. It does nothing.
#[tactic(auto, using(crate::proofs::Law::types_are_rows))]
pub fn types_are_rows()
    ensures { TypesAreRows }
{}
