// The laws. The functions do nothing; their clauses are the laws. Where one speaks of passes, these are the list before a call and
// behind it.
ghost use Rattle.cmd_compile.specs.Passing.{passing};
ghost use Rattle.gg_headline.specs.Compiling.{CompileComesTo, AcceptedIsNotRefused};
ghost use Rattle.gg_headline.specs.Running.{RunsComeTo, RunsTellAll};
ghost use Rattle.gg_headline.specs.Running.{EndedTextsEnd, TrappingTextsTrap, EndlessTextsGoOn, EndlessTextsWrite};
ghost use Rattle.gg_headline.specs.Texts.{TextsAreOne, TextsAreOfTrees};

use cmd_compile::Pass;

/// The law: by a description that is told and accepted `compile` comes to the text of the source's program, to want of memory, to a counted
/// fault, to a source over its limit or with a fault, or to a function that needs more than `NEED_LIMIT` words of its frame.
pub fn compile_comes_to(_before: &[Box<dyn Pass>], _behind: &[Box<dyn Pass>])
    ensures { CompileComesTo (passing (λ p n c e. wrote p n c e) (λ p. made p) _before.now _behind.now) }
{}

/// The law: by such a description none of the answers comes by which a description is refused.
pub fn accepted_is_not_refused(_before: &[Box<dyn Pass>], _behind: &[Box<dyn Pass>])
    ensures { AcceptedIsNotRefused (passing (λ p n c e. wrote p n c e) (λ p. made p) _before.now _behind.now) }
{}

/// The law: `run` of a text that `compile` wrote comes to an end of its code's run, to want of memory, to a counted fault, or to a text or
/// an input over its limit.
pub fn runs_come_to()
    ensures { RunsComeTo }
{}

/// The law: where the source ends with a value, `run` of its text answers 0 with that output and that value, with each number of steps from
/// a least one on and with no smaller one.
pub fn ended_texts_end()
    ensures { EndedTextsEnd }
{}

/// The law: where the source traps, so does `run` of its text, with that output.
pub fn trapping_texts_trap()
    ensures { TrappingTextsTrap }
{}

/// The law: where the source goes on for ever, each `run` of its text is spent, at a front of what the source writes.
pub fn endless_texts_go_on()
    ensures { EndlessTextsGoOn }
{}

/// The law: and whatever the source writes, each `run` of its text has written with enough steps.
pub fn endless_texts_write()
    ensures { EndlessTextsWrite }
{}

/// The law: at each end of `run` the output and the end are those of the source's meaning on the same input, unless the source makes a wild
/// access or nests over `ACTIVE_CALL_LIMIT` calls there. Nothing is asked of the input, whether it is told or not.
pub fn runs_tell_all()
    ensures { RunsTellAll }
{}

/// The law: a program has one text by a description and passes each of which makes one code of a code; so where there are no passes.
pub fn texts_are_one(_before: &[Box<dyn Pass>], _behind: &[Box<dyn Pass>])
    ensures { TextsAreOne (λ p n c e. wrote p n c e) (λ p. made p) _before.now _behind.now }
{}

/// The law: the code of a text of a source's program, before its passes, is selected of trees of which all holds that is said of those of that program.
pub fn texts_are_of_trees()
    ensures { TextsAreOfTrees }
{}
