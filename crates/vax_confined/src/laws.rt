// The laws. Each function does nothing; its clause is the law.
ghost use Rattle.vax_confined.specs.Laws.{OneAfterAnother, ConfinedRunsAreRuns};

/// The law: instructions in two parts are done one part after the other.
pub fn one_after_another()
    ensures { OneAfterAnother }
{}

/// The law: where a confined run doesn't break, the machine's is the same.
pub fn confined_runs_are_runs()
    ensures { ConfinedRunsAreRuns }
{}
