// The law of a text's tokens.
ghost use Rattle.std.specs.Prelude.{ℕ, List};
ghost use Rattle.c_tokens.specs.declared.token.Spanned.{Spanned};
ghost use Rattle.c_tokens.specs.Grammar.{Tokens, IsEnded};

/// The last token of a text is its end. It does nothing.
#[tactic(auto, using(crate::proofs::Law::tokens_ended))]
pub fn tokens_are_ended()
    ensures { (at : ℕ) (text : List ℕ) (ts : List Spanned) → Tokens at text ts → IsEnded ts }
{}
