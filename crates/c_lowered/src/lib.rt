//! All that is said of the trees of a program, as one record.
#![tactic(auto)]

ghost use Rattle.c_lowered.specs.Lowered.{SoundProgramsAreLowered, TypedProgramsAreLowered, SourcesAreLowered};

/// The law: the trees of a sound program are lowered. It does nothing.
pub fn sound_programs_are_lowered()
    ensures { SoundProgramsAreLowered }
{}

/// The law: so are those of a typed program. It does nothing.
pub fn typed_programs_are_lowered()
    ensures { TypedProgramsAreLowered }
{}

/// The law: so are those of the program that bytes are the source of. It does nothing.
pub fn sources_are_lowered()
    ensures { SourcesAreLowered }
{}
