// The laws. Each function does nothing; its clause is the law.
ghost use Rattle.vax_target_lines.specs.Takings.{OperandsAreTaken};
ghost use Rattle.vax_target_lines.specs.Lines.{LinesDo, LinesTrap};

/// The law: an instruction takes of its operands what their terms say.
#[tactic(auto, using(crate::proofs::Takings::operands_are_taken))]
pub fn operands_are_taken()
    ensures { OperandsAreTaken }
{}

/// The law: a line does what it is judged to do.
#[tactic(auto, using(crate::proofs::Performing::lines_do))]
pub fn lines_do()
    ensures { LinesDo }
{}

/// The law: a line traps where its divisor is zero.
#[tactic(auto, using(crate::proofs::Performing::lines_trap))]
pub fn lines_trap()
    ensures { LinesTrap }
{}
