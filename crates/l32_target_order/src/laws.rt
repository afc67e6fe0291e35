// The laws. Each function does nothing; its clause is the law.
ghost use Rattle.l32_target_order.specs.Laws.{InstructionsRun, RulesDivideOnce, StatementsHaveLines};

/// The law: instructions are done one after another.
pub fn instructions_run()
    ensures { InstructionsRun }
{}

/// The law: a rule that the target takes divides at most once.
pub fn rules_divide_once()
    ensures { RulesDivideOnce }
{}

/// The law: a statement that the target takes has a line.
pub fn statements_have_lines()
    ensures { StatementsHaveLines }
{}
