// The laws. Each function does nothing; its clause is the law.
ghost use Rattle.vax_target_operands.specs.Places.{OperandsStand};
ghost use Rattle.vax_target_operands.specs.Conditions.{FunctionsMean};

/// The law: each operand of a template with its holes filled stands where its template says.
#[tactic(auto, using(crate::proofs::Forms::operands_stand))]
pub fn operands_stand()
    ensures { OperandsStand }
{}

/// The law: each function of the machine computes what its row says of the terms that are worth its operands.
#[tactic(auto, using(crate::proofs::Tables::functions_mean))]
pub fn functions_mean()
    ensures { FunctionsMean }
{}
