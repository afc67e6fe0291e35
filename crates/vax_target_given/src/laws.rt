// The law. The function does nothing; its clause is the law.
ghost use Rattle.vax_target_given.specs.Laws.{ShapesAreGiven};

/// The law: the lines of a rule that gives a shape change nothing, and the operand stands for what the rule gives.
pub fn shapes_are_given()
    ensures { ShapesAreGiven }
{}
