// The VAX has a state in which the run of a compiled program's trees begins.
ghost use Rattle.gg_compile_codes.specs.Beginning.{WrittenProgramsBegin, TypedProgramsBegin};

/// The law: where a code is written of a program, some state of the VAX stands for the beginning of the run of its trees, with room for a
/// tree. It does nothing.
pub fn written_programs_begin()
    ensures { WrittenProgramsBegin }
{}

/// The law: so it is with each typed program of which a code is selected. It does nothing.
pub fn typed_programs_begin()
    ensures { TypedProgramsBegin }
{}
