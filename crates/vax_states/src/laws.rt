// The laws of states that stand for states of trees. Each function does nothing; its clause is the law.
ghost use Rattle.vax_states.specs.Sentences.{FramesStand, CallsStandApart, HomesAreNamed, ArgumentsAreNamed};
ghost use Rattle.vax_states.specs.Sentences.{LocalsAreRead, ArgumentsAreRead, AreasAreRead, FreeWordsAreFree};
ghost use Rattle.vax_states.specs.Sentences.{LocalsAreWritten, ArgumentsAreWritten, AreasAreWritten, LongwordsArePushed};
ghost use Rattle.vax_states.specs.Sentences.{RegistersAreFree};

/// The law: from sp up to fp stand the pushed arguments and the frame's words, and the number of arguments stands at ap.
pub fn frames_stand()
    ensures { FramesStand }
{}

/// The law: each live call has its own frame and its own piece of the stack, inner ones below outer ones.
pub fn calls_stand_apart()
    ensures { CallsStandApart }
{}

/// The law: the operand of a local names its home.
pub fn homes_are_named()
    ensures { HomesAreNamed }
{}

/// The law: the operand of an argument names its place.
pub fn arguments_are_named()
    ensures { ArgumentsAreNamed }
{}

/// The law: a local that was written stands at its home.
pub fn locals_are_read()
    ensures { LocalsAreRead }
{}

/// The law: the arguments stand above ap.
pub fn arguments_are_read()
    ensures { ArgumentsAreRead }
{}

/// The law: the data area is read as trees read it.
pub fn areas_are_read()
    ensures { AreasAreRead }
{}

/// The law: a word behind the locals may hold anything.
pub fn free_words_are_free()
    ensures { FreeWordsAreFree }
{}

/// The law: a local is set at its home.
pub fn locals_are_written()
    ensures { LocalsAreWritten }
{}

/// The law: an argument is set at its place.
pub fn arguments_are_written()
    ensures { ArgumentsAreWritten }
{}

/// The law: the data area is written as trees write it.
pub fn areas_are_written()
    ensures { AreasAreWritten }
{}

/// The law: an argument is pushed, where there is room.
pub fn longwords_are_pushed()
    ensures { LongwordsArePushed }
{}

/// The law: a register among r0 to r11 may hold anything.
pub fn registers_are_free()
    ensures { RegistersAreFree }
{}
