// The law. The function does nothing; its clause is the law.
ghost use Rattle.l32_target_writing.specs.Laws.{LinesAreWritten};

/// The law: lines of rules, and those that save and reload, are valid instructions with their holes filled.
pub fn lines_are_written()
    ensures { LinesAreWritten }
{}
