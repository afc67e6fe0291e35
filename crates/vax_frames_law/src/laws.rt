// The laws of frames. Each function does nothing; its clause is the law.
ghost use Rattle.vax_frames_law.specs.Laws.{CallsBegin, ReturnsAgree, LastReturnEnds};
ghost use Rattle.vax_frames_law.specs.Guarding.{StepsKeep, ReturnsRestore, CallsSave, RunsBeginIntact};
ghost use Rattle.vax_frames_law.specs.Within.{ClosedIsGuarded, FramesAreGuarded, FrameCodesKeepWithin};
ghost use Rattle.vax_frames_law.specs.Writing.{FrameCodesAreValid};
ghost use Rattle.vax_frames_law.specs.Undoing.{CallsNote, ReturnsUndo};

/// The law: a call comes to a state that stands for the trees' state in which the function begins.
#[tactic(auto, using(crate::proofs::Functions::calls_begin))]
pub fn calls_begin()
    ensures { CallsBegin }
{}

/// The law: a return with a value comes to the caller.
pub fn returns_agree()
    ensures { ReturnsAgree }
{}

/// The law: the outermost call's return ends the run.
pub fn last_return_ends()
    ensures { LastReturnEnds }
{}

/// The law: each step keeps r2 to r11 in intact frames.
pub fn steps_keep_registers()
    ensures { StepsKeep }
{}

/// The law: a return gives r2 to r11 back as they were at the call.
#[tactic(auto, using(crate::proofs::Guarding::returns_restore))]
pub fn returns_restore_registers()
    ensures { ReturnsRestore }
{}

/// The law: a call saves r1 to r11 as they are.
#[tactic(auto, using(crate::proofs::Guarding::calls_save))]
pub fn calls_save()
    ensures { CallsSave }
{}

/// The law: a run begins with an intact frame.
pub fn runs_begin_intact()
    ensures { RunsBeginIntact }
{}

/// The law: a code whose instructions keep within their functions is guarded.
#[tactic(auto, using(crate::proofs::Closing::closed_is_guarded))]
pub fn closed_is_guarded()
    ensures { ClosedIsGuarded }
{}

/// The law: a code of frames, each round a body that keeps within it, is guarded.
#[tactic(auto, using(crate::proofs::Framing::frames_are_guarded))]
pub fn frames_are_guarded()
    ensures { FramesAreGuarded }
{}

/// The law: the code of a function, whose branches go to labels of its own, keeps within its frame.
pub fn frame_codes_keep_within()
    ensures { FrameCodesKeepWithin }
{}

/// The law: the code of a function can be written where its body can, its label is a name and it has at most `NEED_LIMIT` words.
pub fn frame_codes_are_valid()
    ensures { FrameCodesAreValid }
{}

/// The law: a call notes in its frame where the number of arguments was pushed, fp and ap as they were, and where to go on.
pub fn calls_note()
    ensures { CallsNote }
{}

/// The law: where a call's frame is the innermost again and the number of arguments stands as it was pushed, a return
/// gives fp and ap back, and takes the arguments off the stack.
pub fn returns_undo()
    ensures { ReturnsUndo }
{}
