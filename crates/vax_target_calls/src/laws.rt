// The laws. Each function does nothing; its clause is the law.
ghost use Rattle.vax_target_calls.specs.Laws.{CallsDo, TargetDoes};

/// The law: the lines of a statement that calls are ready to enter the function, or do what the service does.
pub fn calls_do()
    ensures { CallsDo }
{}

/// The law: the VAX keeps the law of a target on statements: their lines do their deed.
pub fn target_does()
    ensures { TargetDoes }
{}
