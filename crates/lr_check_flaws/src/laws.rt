// The laws. The functions do nothing; their clauses are the laws.
ghost use Rattle.lr_check_flaws.specs.Flaws.{FlawsAreFaults, AlongCircles};

/// The law: a flaw of what was found is a fault of the sets.
pub fn flaws_are_faults()
    ensures { FlawsAreFaults }
{}

/// The law: steps along classes are reductions of whole lists.
pub fn along_circles()
    ensures { AlongCircles }
{}
