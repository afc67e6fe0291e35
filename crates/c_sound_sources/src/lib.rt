//! The law of sources: the program that bytes are the source of is sound.
#![tactic(auto)]

ghost use Rattle.c_sound_sources.specs.Claim.{SourcesAreSound};

/// The law: bytes that are the source of a program give all that typing guarantees of it. It does nothing.
pub fn sources_are_sound()
    ensures { SourcesAreSound }
{}
