// The laws. The functions do nothing; their clauses are the laws.
ghost use Rattle.gg_compile_homes.specs.Claims.{RehomedTreesAreReady, RehomedProgramsAreWithinLimits, RehomedTreesFitCode};
ghost use Rattle.gg_compile_homes.specs.Claims.{RehomedCodesKeepPrograms, RehomedCodesCanBeWritten};

/// The law: the trees of a typed program whose functions fit their frames are ready, whatever locals they want in registers.
pub fn rehomed_trees_are_ready()
    ensures { RehomedTreesAreReady }
{}

/// The law: they are within the limits of code.
pub fn rehomed_programs_are_within_limits()
    ensures { RehomedProgramsAreWithinLimits }
{}

/// The law: their functions have few enough locals, and their objects few enough bytes.
pub fn rehomed_trees_fit_code()
    ensures { RehomedTreesFitCode }
{}

/// The law: the code that is selected of them keeps the program.
pub fn rehomed_codes_keep_programs()
    ensures { RehomedCodesKeepPrograms }
{}

/// The law: a text can be written of it.
pub fn rehomed_codes_can_be_written()
    ensures { RehomedCodesCanBeWritten }
{}
