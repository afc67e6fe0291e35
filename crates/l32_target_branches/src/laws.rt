// The law. The function does nothing; its clause is the law.
ghost use Rattle.l32_target_branches.specs.Laws.{StatementsBranch};

/// The law: the lines of a statement that branches or jumps do that.
pub fn statements_branch()
    ensures { StatementsBranch }
{}
