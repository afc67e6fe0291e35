// The laws. Each function does nothing; its clause is the law.
ghost use Rattle.l32_target_operands.specs.Functions.{FunctionsMean};
ghost use Rattle.l32_target_operands.specs.Places.{OperandsStand};

/// The law: each operand with its holes filled stands where its template says.
pub fn operands_stand()
    ensures { OperandsStand }
{}

/// The law: each function of the machine computes what its row says of terms.
pub fn functions_mean()
    ensures { FunctionsMean }
{}
