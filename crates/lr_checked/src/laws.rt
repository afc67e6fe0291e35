// What the sets say of typed statements.
ghost use Rattle.lr_checked.specs.Claims.{NoFaultIsEnough, ParsesAccept};

use lr_check_parse::Answers;

/// A law: where the sets of a description's tables have no fault, no typed statement stops the parse. It
/// does nothing.
pub fn no_fault_is_enough()
    ensures { NoFaultIsEnough }
{}

/// A law: where no typed statement stops the parse, whoever answers its questions, it accepts or is
/// refused. It does nothing.
pub fn parses_accept<A: Answers>(_answers: &A)
    ensures { ParsesAccept A.answering }
{}
