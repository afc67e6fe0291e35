// The laws. Each function does nothing; its clause is the law.
ghost use Rattle.l32_target_rules.specs.Laws.{ResultsAreLeft};
ghost use Rattle.l32_target_rules.specs.Scene.{InstancesAreSeen};

/// The law: the result of a rule is in its register, and all else is kept.
pub fn results_are_left()
    ensures { ResultsAreLeft }
{}

/// The law: in an instance of a rule each hole means what it stands for.
pub fn instances_are_seen()
    ensures { InstancesAreSeen }
{}
