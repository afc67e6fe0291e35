//! The phrases of generated C sources.
#![tactic(auto)]

ghost use Rattle.std.specs.Prelude.{◌≡◌, ℕ, Ok};
ghost use Rattle.c_phrases.specs.Classes.{seen};
ghost use Rattle.c_phrases.specs.Grammar.{IsUnit};
ghost use Rattle.gg_load_tokens.specs.Lines.{source_tokens};
ghost use Rattle.gg_load_phrases.specs.Unit.{source_unit};

/// The tokens of a generated source are those of this unit. It does nothing.
pub fn generated_source_has_unit()
    ensures { (k : ℕ) → IsUnit (seen (source_tokens k)) (source_unit k) }
{}
