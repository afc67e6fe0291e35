// The laws. The functions do nothing; their clauses are the laws.
ghost use Rattle.gg_compile_counts.specs.Claims.{LabelsAreFew, ProgramsAreSmall, TypedHaveFewLabels};

/// The law: lowering takes at most three labels for each node, branch, loop, run of zeros and block of a program.
pub fn labels_are_few()
    ensures { LabelsAreFew }
{}

/// The law: a typed program has fewer nodes, branches and loops than its unit has tokens.
pub fn programs_are_small()
    ensures { ProgramsAreSmall }
{}

/// The law: so lowering takes at most 3,145,728 labels for the program of a unit of a source.
pub fn typed_have_few_labels()
    ensures { TypedHaveFewLabels }
{}
