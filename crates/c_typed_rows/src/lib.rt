//! The rows of the table of operators: which operands each takes, and as what the whole is typed.
#![tactic(auto)]

ghost use Rattle.c_typed_rows.specs.Rows.{RowsAreAnswered};

/// The law: each operator's function answers exactly what a row says, and where no row fits exactly the fault. It does nothing.
#[tactic(auto, using(crate::proofs::Law::rows_are_answered))]
pub fn rows_are_answered()
    ensures { RowsAreAnswered }
{}
