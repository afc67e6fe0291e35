// The laws. The functions do nothing; their clauses are the laws.
ghost use Rattle.gg_compile_laws.specs.Keeping.{SelectedCodesKeepPrograms};
ghost use Rattle.gg_compile_laws.specs.Rooms.{LoweredProgramsHaveRooms};
ghost use Rattle.gg_compile_laws.specs.Ready.{TreesGo, EachTreeHasCode};
ghost use Rattle.gg_compile_laws.specs.Typed.{TypedProgramsAreWithinLimits, TypedProgramsAreReady, TypedCodesKeepPrograms};
ghost use Rattle.gg_compile_laws.specs.Written.{SelectedCodesCanBeWritten, SelectedProgramsCanBeWritten, TypedCodesCanBeWritten};

/// The law: the code that is selected of a program's trees loads, and on every input of bytes its run follows the program's.
pub fn selected_codes_keep_programs()
    ensures { SelectedCodesKeepPrograms }
{}

/// The law: no tree of a program that is ready stops its code.
pub fn trees_go()
    ensures { TreesGo }
{}

/// The law: by such tables each of its trees has a code.
pub fn each_tree_has_code()
    ensures { EachTreeHasCode }
{}

/// The law: a sound program each of whose functions needs at most `NEED_LIMIT` words of its frame is lowered to trees that have room.
pub fn lowered_programs_have_rooms()
    ensures { LoweredProgramsHaveRooms }
{}

/// The law: names, numbers, offsets and labels of the trees of a typed program whose functions fit their frames can be spelled, and its
/// functions' locals fit.
pub fn typed_programs_are_within_limits()
    ensures { TypedProgramsAreWithinLimits }
{}

/// The law: such a program's trees are ready, so that by a description that was checked and shown all have code.
pub fn typed_programs_are_ready()
    ensures { TypedProgramsAreReady }
{}

/// The law: the code that is selected of the trees of such a program loads, and on every input of bytes its run follows the program's.
pub fn typed_codes_keep_programs()
    ensures { TypedCodesKeepPrograms }
{}

/// The law: a text can be written of the code that is selected of the trees of a valid program within the limits.
pub fn selected_codes_can_be_written()
    ensures { SelectedCodesCanBeWritten }
{}

/// The law: so it is with the trees of a C program that is sound, where they are within the limits.
pub fn selected_programs_can_be_written()
    ensures { SelectedProgramsCanBeWritten }
{}

/// The law: so it is with every typed program whose functions fit their frames.
pub fn typed_codes_can_be_written()
    ensures { TypedCodesCanBeWritten }
{}
