// The law. The function does nothing; its clause is the law.
ghost use Rattle.line_names.specs.Laws.{NamesAreSpelled};

/// The law: what the lines of a rule name can be spelled, and they name a label or a function only where the rule has one.
pub fn names_are_spelled()
    ensures { NamesAreSpelled }
{}
