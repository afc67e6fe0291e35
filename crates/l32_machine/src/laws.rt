// Laws of runs of L32 code. Each function does nothing; its clause is the law.
ghost use Rattle.std.specs.Prelude.{List, ℕ};
ghost use Rattle.gg_base.specs.Runs.{OneEnd};
ghost use Rattle.l32_core.specs.declared.code.Code32.{Code32};
ghost use Rattle.l32_machine.specs.Running.{run};

/// A run of a code on an input has one end, which it reaches with each number of steps from the end's own on, and with no smaller one.
#[tactic(auto, using(crate::proofs::Law::run_has_one_end))]
pub fn run_has_one_end()
    ensures { (c : Code32) (input : List ℕ) → OneEnd (run c input) }
{}
