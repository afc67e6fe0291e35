// The laws. Each function does nothing; its clause is the law.
ghost use Rattle.vax_pairs.specs.Laws.{TreesAreDone};

/// The law: where the run on terms from a machine's state has a tree, the machine does what that says.
pub fn trees_are_done()
    ensures { TreesAreDone }
{}
