// The laws. Each function does nothing; its clause is the law.
ghost use Rattle.vax_target_runs.specs.Kept.{RegistersAreKept, CodesAreKept};
ghost use Rattle.vax_target_runs.specs.Runs.{LinesRun};

/// The law: where one register of r0 to r11 has changed, all is kept that doesn't touch it.
pub fn registers_are_kept()
    ensures { RegistersAreKept }
{}

/// The law: where only condition codes have changed, all is kept.
pub fn codes_are_kept()
    ensures { CodesAreKept }
{}

/// The law: the lines of a template do what they are judged to do, one after another.
pub fn lines_run()
    ensures { LinesRun }
{}
