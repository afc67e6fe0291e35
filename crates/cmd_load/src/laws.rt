// The law of both sides. The function does nothing; its clauses are the law.
ghost use Rattle.std.specs.Prelude.{◌≤◌, ℕ, []};
ghost use Rattle.gg_base.specs.Runs.{OneEnd};
ghost use Rattle.c_meaning.specs.Programs.{source};
ghost use Rattle.vax_core.specs.declared.code.Code.{Code};
ghost use Rattle.vax_machine.specs.Running.{run};
ghost use Rattle.cmd_compile.specs.Keeping.{Keeps};
ghost use Rattle.gg_load_program.specs.Program.{source_program};
ghost use Rattle.gg_load_meaning.specs.Run.{ComesTo, source_outcome};
ghost use Rattle.cmd_load_runs.specs.Sides.{EndsLike};
ghost use Rattle.cmd_load.specs.Telling.{greatest_number};

use cmd_load_runs::laws::followers_end_alike;
use gg_load_meaning::generated_source_runs;
use vax_machine::laws::run_has_one_end;

/// On no input a generated source comes to its outcome, with fewer turns than it may take; and a code that keeps its program ends like it.
pub fn both_sides_end_alike()
    ensures comes { (k : ℕ) → ComesTo (source (source_program k) []) (source_outcome k) }
    ensures few { (k : ℕ) → k ≤ 1000 → (source_outcome k).number ≤ greatest_number }
    ensures one_end { (c : Code) → OneEnd (run c []) }
    ensures alike { (k : ℕ) (c : Code) → ∥ Keeps (source_program k) c ∥₁ → EndsLike (run c []) (source_outcome k) 0 }
{
    generated_source_runs();
    run_has_one_end();
    followers_end_alike();
}
