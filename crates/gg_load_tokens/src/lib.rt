//! The tokens of generated C sources.
#![tactic(auto)]

ghost use Rattle.std.specs.Prelude.{◌≤◌, ℕ};
ghost use Rattle.c_tokens.specs.Grammar.{Tokens};
ghost use Rattle.gg_load.specs.Source.{source_text};
ghost use Rattle.gg_load_tokens.specs.Lines.{source_tokens};

/// A generated source has these tokens. It does nothing.
#[tactic(auto, using(crate::proofs::Law::tokens_of_source))]
pub fn generated_source_has_tokens()
    ensures { (k : ℕ) → k ≤ 1000 → Tokens 0 (source_text k) (source_tokens k) }
{}
