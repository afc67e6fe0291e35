// The laws. Each function does nothing; its clause is the law.
ghost use Rattle.vax_machine_lists.specs.Laws.{StepsAreTheirs, OneAfterAnother};
ghost use Rattle.vax_machine_lists.specs.Kept.{InstructionsKeep};
ghost use Rattle.vax_machine_lists.specs.Sound.{StepsStaySound, RunsBeginSound};

/// The law: where instructions stand in a code, the machine's steps do what the instructions do by themselves.
#[tactic(auto, using(crate::proofs::Joining::steps_are_theirs))]
pub fn steps_are_theirs()
    ensures { StepsAreTheirs }
{}

/// The law: instructions in two parts are done one part after the other.
pub fn one_after_another()
    ensures { OneAfterAnother }
{}

/// The law: an instruction changes no register of r1 to r11 that its operands don't name, no live frame and no code.
#[tactic(auto, using(crate::proofs::Registers::register_kept))]
pub fn instructions_keep_registers()
    ensures { InstructionsKeep }
{}

/// The law: each step of a machine that goes on leaves 15 longwords in registers, the whole stack and bytes in memory, unless the
/// run is over.
#[tactic(auto, using(crate::proofs::Soundness::steps_stay_sound))]
pub fn steps_stay_sound()
    ensures { StepsStaySound }
{}

/// The law: a run of a code that can be written and has no fault begins so, unless it is over at once.
#[tactic(auto, using(crate::proofs::Beginning::runs_begin_sound))]
pub fn runs_begin_sound()
    ensures { RunsBeginSound }
{}
