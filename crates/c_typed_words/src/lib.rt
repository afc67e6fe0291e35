//! What the tokens of a unit's phrases are: names, numbers and strings of the token grammar, no more of them than a source has.
#![tactic(auto)]

ghost use Rattle.std.specs.Prelude.{◌≤◌, ℕ, List, length};
ghost use Rattle.gg_base.specs.declared.limits.TheConstants.{SOURCE_LIMIT};
ghost use Rattle.c_tokens.specs.declared.token.Spanned.{Spanned};
ghost use Rattle.c_tokens.specs.Grammar.{Tokens};
ghost use Rattle.c_phrases.specs.Classes.{seen};
ghost use Rattle.c_phrases.specs.Units.{AUnit};
ghost use Rattle.c_phrases.specs.Grammar.{IsUnit};
ghost use Rattle.c_sound.specs.Fits.{AreBytes};
ghost use Rattle.c_typed_words.specs.Words.{IsToken, HasTokens};
ghost use Rattle.c_typed_words.specs.Phrases.{ExternalsOf};

/// The unit of a source of at most `SOURCE_LIMIT` bytes has tokens of the grammar, and few enough; and the names, numbers and strings
/// of such a unit's phrases are such tokens. It does nothing.
#[tactic(auto, using(crate::proofs::Tokens::unit_has_tokens, crate::proofs::Spelled::tokens_of))]
pub fn source_has_tokens()
    ensures tokens { (bytes : List ℕ) (list : List Spanned) (unit : AUnit) → AreBytes bytes → length bytes ≤ SOURCE_LIMIT
        → Tokens 0 bytes list → IsUnit (seen list) unit → HasTokens unit }
    ensures phrases { (unit : AUnit) → HasTokens unit → ExternalsOf IsToken unit.externals }
{}
