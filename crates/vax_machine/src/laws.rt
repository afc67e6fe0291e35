// Laws of runs of VAX code. Each function does nothing; its clause is the law.
ghost use Rattle.std.specs.Prelude.{◌≡◌, List, ℕ};
ghost use Rattle.gg_base.specs.Runs.{OneEnd};
ghost use Rattle.vax_core.specs.declared.code.Code.{Code};
ghost use Rattle.vax_machine.specs.State.{State};
ghost use Rattle.vax_machine.specs.Loading.{start, Stands};
ghost use Rattle.vax_machine.specs.Running.{state_run, run};

/// A run of a code on an input has one end, which it reaches with each number of steps from the end's own on, and with no smaller one.
pub fn run_has_one_end()
    ensures { (c : Code) (input : List ℕ) → OneEnd (run c input) }
{}

/// A machine that was just made of a code runs as the code does.
pub fn loaded_machine_runs_so()
    ensures { (c : Code) (input : List ℕ) (m : State) → Stands m (start c input) → state_run m ≡ run c input }
{}
