//! The typed programs of generated C sources, as plain data.
#![tactic(auto)]

ghost use Rattle.std.specs.Prelude.{ℕ};
ghost use Rattle.std.specs.List.{AllByRecursion};
ghost use Rattle.gg_load_program.specs.Program.{IsSmall, source_program};

/// Each function of a generated source needs at most `NEED_LIMIT` longwords of its frame. It does nothing.
pub fn generated_frames_are_small()
    ensures { (k : ℕ) → AllByRecursion IsSmall (source_program k).routines }
{}
