// The laws. The functions do nothing; their clauses are the laws.
ghost use Rattle.gg_compile_homes_codes.specs.Claims.{RehomedCodesAreBounded, RehomedCodesKeepRegisters, RehomedProgramsBegin};

/// The law: it takes as many instructions, at most, as the program's own trees allow their code.
pub fn rehomed_codes_are_bounded()
    ensures { RehomedCodesAreBounded }
{}

/// The law: in each state of its run all live frames are intact.
pub fn rehomed_codes_keep_registers()
    ensures { RehomedCodesKeepRegisters }
{}

/// The law: some state of the VAX stands for the beginning of the run of these trees.
pub fn rehomed_programs_begin()
    ensures { RehomedProgramsBegin }
{}
