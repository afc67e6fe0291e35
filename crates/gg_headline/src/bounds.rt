// The laws. The functions do nothing; their clauses are the laws. Where one speaks of passes, these are the list before a call and
// behind it.
ghost use Rattle.cmd_compile.specs.Passing.{passing};
ghost use Rattle.gg_headline.specs.Bounded.{EndedTextsEndWithin, TrappingTextsTrapWithin, NoPassesChangeNothing};

use cmd_compile::Pass;

/// The law: where the source ends with a value, with n counted turns and calls, `run` of its text, whose code no pass changed, answers 0
/// with that output and that value, with each number of steps from a least one on, which is at most K times (m + 1). K is one more than
/// the number of the items of the text's code, and m is n + Z (n + 1) where the program's declarations set Z zeros.
pub fn ended_texts_end_within(_before: &[Box<dyn Pass>], _behind: &[Box<dyn Pass>])
    ensures { EndedTextsEndWithin (passing (λ p n c e. wrote p n c e) (λ p. made p) _before.now _behind.now) }
{}

/// The law: where the source traps, so does `run` of its text, within as many.
pub fn trapping_texts_trap_within(_before: &[Box<dyn Pass>], _behind: &[Box<dyn Pass>])
    ensures { TrappingTextsTrapWithin (passing (λ p n c e. wrote p n c e) (λ p. made p) _before.now _behind.now) }
{}

/// The law: an empty list of passes changes no code.
pub fn no_passes_change_nothing(_before: &[Box<dyn Pass>], _behind: &[Box<dyn Pass>])
    ensures { NoPassesChangeNothing (λ p n c e. wrote p n c e) (λ p. made p) _before.now _behind.now }
{}
