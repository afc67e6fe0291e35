//! The typed programs of generated C sources.
#![tactic(auto)]

ghost use Rattle.std.specs.Prelude.{◌≤◌, ℕ, List};
ghost use Rattle.c_typed_law.specs.Texts.{IsText};
ghost use Rattle.gg_load_phrases.specs.Unit.{source_unit};
ghost use Rattle.gg_load_program.specs.Program.{source_program};

use c_typed_law::laws::text_law;

/// The unit of a generated source is typed as this program, wherever the bodies of its functions end.
pub fn generated_unit_is_typed()
    ensures { (k : ℕ) (ends : List ℕ) → k ≤ 1000 → IsText (source_unit k).externals ends (source_unit k).end (source_program k) }
{
    text_law();
}
