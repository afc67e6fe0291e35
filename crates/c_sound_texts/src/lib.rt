//! The law of typed texts: the program of each well-typed unit is sound.
#![tactic(auto)]

ghost use Rattle.c_sound_texts.specs.Claim.{TypedIsSound};

/// The law: the program that a unit of tokens of the grammar is typed as is sound. It does nothing.
pub fn typed_is_sound()
    ensures { TypedIsSound }
{}
