// The laws. Each function does nothing; its clause is the law.
ghost use Rattle.l32_machine_lists.specs.Laws.{StepsAreTheirs, LabelsArePassed};

/// The law: where instructions stand in a code, the machine's steps do what the instructions do by themselves.
pub fn steps_are_theirs()
    ensures { StepsAreTheirs }
{}

/// The law: the run of a state that stands at a label is the run behind the label.
pub fn labels_are_passed()
    ensures { LabelsArePassed }
{}
