// The law. The function does nothing; its clause is the law.
ghost use Rattle.vax_target_statements.specs.Laws.{StatementsDo};

/// The law: the lines of a statement that stores, branches, pushes, returns or jumps do its deed.
pub fn statements_do()
    ensures { StatementsDo }
{}
