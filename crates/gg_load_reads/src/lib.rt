//! Generated C sources are sources of their programs.
#![tactic(auto)]

ghost use Rattle.std.specs.Prelude.{◌≤◌, ℕ};
ghost use Rattle.gg_base.specs.declared.limits.TheConstants.{NEED_LIMIT};
ghost use Rattle.c_typed.specs.c_typed_check.specs.Typed.{need_at};
ghost use Rattle.c_typed.specs.Sources.{Reads};
ghost use Rattle.gg_load.specs.Source.{source_text};
ghost use Rattle.gg_load_program.specs.Program.{source_program};

use gg_load_phrases::generated_source_has_unit;
use gg_load_program::generated_frames_are_small;
use gg_load_tokens::generated_source_has_tokens;
use gg_load_typed::generated_unit_is_typed;

/// A generated source is the source of its program, each function of which needs at most `NEED_LIMIT` longwords of its frame.
pub fn generated_source_has_program()
    ensures reads { (k : ℕ) → k ≤ 1000 → Reads (source_text k) (source_program k) }
    ensures needs { (k n : ℕ) → need_at (source_program k) n ≤ NEED_LIMIT }
{
    generated_source_has_tokens();
    generated_source_has_unit();
    generated_unit_is_typed();
    generated_frames_are_small();
}
