// The laws of frames. Each function does nothing; its clause is the law.
ghost use Rattle.l32_frames_law.specs.Laws.{CallsBegin, RunsBegin, ReturnsAgree, LastReturnEnds, EndsReturnZero};
ghost use Rattle.l32_frames_law.specs.Keeping.{CallsNote, ReturnsTakeBack};
ghost use Rattle.l32_frames_law.specs.Rooms.{StackHasRoom};
ghost use Rattle.l32_frames_law.specs.Writing.{FrameCodesAreValid};

/// The law: a call comes to a state that stands for the trees' state in which the function begins.
pub fn calls_begin()
    ensures { CallsBegin }
{}

/// The law: a run begins in a state that stands, one step on, for the trees' state in which main begins.
pub fn runs_begin()
    ensures { RunsBegin }
{}

/// The law: a return with a value comes to the caller.
pub fn returns_agree()
    ensures { ReturnsAgree }
{}

/// The law: the outermost call's return ends the run.
pub fn last_return_ends()
    ensures { LastReturnEnds }
{}

/// The law: where a body's end is reached, the function returns 0.
pub fn ends_return_zero()
    ensures { EndsReturnZero }
{}

/// The law: a call notes a1 to a11, fp, sp behind its arguments, and where to go on.
pub fn calls_note()
    ensures { CallsNote }
{}

/// The law: a return takes back what the call has noted.
pub fn returns_take_back()
    ensures { ReturnsTakeBack }
{}

/// The law: the stack has room for `ACTIVE_CALL_LIMIT` active calls.
pub fn stack_has_room()
    ensures { StackHasRoom }
{}

/// The law: the code of a function can be written where its body can, its label is a name and it has at most `NEED_LIMIT` words.
pub fn frame_codes_are_valid()
    ensures { FrameCodesAreValid }
{}
