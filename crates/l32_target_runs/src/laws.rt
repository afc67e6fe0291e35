// The laws. Each function does nothing; its clause is the law.
ghost use Rattle.l32_target_runs.specs.Runs.{RegistersAreKept, LinesRun};

/// The law: where one register has changed, all is kept that doesn't touch it.
pub fn registers_are_kept()
    ensures { RegistersAreKept }
{}

/// The law: lines do what they are judged to do, one after another, where no divisor is 0.
pub fn lines_run()
    ensures { LinesRun }
{}
