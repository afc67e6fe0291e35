// The laws. Each function does nothing; its clause is the law.
ghost use Rattle.gg_compile_codes.specs.Framed.{SelectedCodesAreFrames, SelectedCodesAreGuarded};
ghost use Rattle.gg_compile_codes.specs.Framed.{GuardedRunsKeepRegisters, TypedCodesKeepRegisters, CallsAreOver};

/// The law: the code that is selected of a program's trees is made of frames, each round a body that keeps within it.
pub fn selected_codes_are_frames()
    ensures { SelectedCodesAreFrames }
{}

/// The law: it is guarded: no instruction names a register of r2 to r11 outside the mask of its function.
pub fn selected_codes_are_guarded()
    ensures { SelectedCodesAreGuarded }
{}

/// The law: in each state of a run of a guarded code all live frames are intact.
pub fn guarded_runs_keep_registers()
    ensures { GuardedRunsKeepRegisters }
{}

/// The law: so it is with the code of a typed program whose functions fit their frames.
pub fn typed_codes_keep_registers()
    ensures { TypedCodesKeepRegisters }
{}

/// The law: a call up to its return leaves the caller's registers r2 to r11, its frame, fp and ap as they were, and takes the arguments off
/// the stack, where the number of arguments stands as it was pushed.
pub fn calls_are_over()
    ensures { CallsAreOver }
{}
