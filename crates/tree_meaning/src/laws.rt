// Laws of the runs of tree programs. The function does nothing; its clauses are the laws.
ghost use Rattle.std.specs.Prelude.{ℕ, List};
ghost use Rattle.gg_base.specs.Runs.{OneEnd};
ghost use Rattle.gg_base.specs.Follows.{NeverBroken};
ghost use Rattle.tree_core.specs.declared.program.TreeProgram.{TreeProgram};
ghost use Rattle.tree_meaning.specs.Meaning.{tree_run};

/// The run of every tree program has one end, whatever the input is, and it never breaks.
pub fn tree_runs_end()
    ensures one_end { (program : TreeProgram) (input : List ℕ) → OneEnd (tree_run program input) }
    ensures unbroken { (program : TreeProgram) (input : List ℕ) → NeverBroken (tree_run program input) }
{}
