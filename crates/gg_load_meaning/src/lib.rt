//! What generated C sources do when they run.
#![tactic(auto)]

ghost use Rattle.std.specs.Prelude.{◌≡◌, ◌≤◌, ◌+◌, ℕ, List, [], ◌∷◌};
ghost use Rattle.gg_base.specs.declared.run.End.TheVariants.{Ended};
ghost use Rattle.c_meaning.specs.Programs.{source};
ghost use Rattle.gg_load_program.specs.Program.{source_program};
ghost use Rattle.gg_load_meaning.specs.Run.{ComesTo, source_outcome};

use c_meaning::tasks_mean;

/// The run of a generated source's program comes to this outcome, whatever its input is: it ends with 0, and counts at most eight turns
/// beside its calls.
pub fn generated_source_runs()
    ensures run { (k : ℕ) (input : List ℕ) → ComesTo (source (source_program k) input) (source_outcome k) }
    ensures few { (k : ℕ) → (source_outcome k).number ≤ k + 8 }
    // One function gives B and a line feed, two give H and a line feed.
    ensures one { source_outcome 1 ≡ record { output = 66 ∷ 10 ∷ []; end = Ended 0; number = 2 } }
    ensures two { source_outcome 2 ≡ record { output = 72 ∷ 10 ∷ []; end = Ended 0; number = 3 } }
{
    tasks_mean();
}
