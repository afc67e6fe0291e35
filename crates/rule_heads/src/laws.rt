// The law. The function does nothing; its clause is the law.
ghost use Rattle.rule_heads.specs.Laws.{HeadsAreFirst};

/// The law: in a rule of one tree only the first symbol is a token that branches or saves.
pub fn heads_are_first()
    ensures { HeadsAreFirst }
{}
