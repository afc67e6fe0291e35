// The law. The function does nothing; its clause is the law.
ghost use Rattle.judging_laws.specs.Laws.{JudgingGoesByLines};

/// The law: where each line divides at most once, and only the first one at all, a template does; and a statement has a line.
pub fn templates_are_judged_by_lines()
    ensures { JudgingGoesByLines }
{}
