// The law. The function does nothing; its clause is the law.
ghost use Rattle.l32_target_statements.specs.Laws.{StatementsStore};

/// The law: the lines of a statement that stores, pushes an argument, saves the last call's result or returns do that.
pub fn statements_store()
    ensures { StatementsStore }
{}
