// The law. The function does nothing; its clause is the law.
ghost use Rattle.l32_target_calls.specs.Laws.{CallsDo};

/// The law: the lines of a statement that calls a function or a service do that.
pub fn calls_do()
    ensures { CallsDo }
{}
