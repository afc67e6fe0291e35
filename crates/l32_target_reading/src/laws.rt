// The law. The function does nothing; its clause is the law.
ghost use Rattle.l32_target_reading.specs.Laws.{OperandsRead};

/// The law: in a state that stands for a tree state, operands read and name what is there.
pub fn operands_read()
    ensures { OperandsRead }
{}
