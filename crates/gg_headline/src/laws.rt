// The laws. The functions do nothing; their clauses are the laws.
ghost use Rattle.cmd_compile.specs.Passing.{passing};
ghost use Rattle.gg_headline.specs.Claims.{CompileEnds, TextsAreTaken, RunsTell, RunsEnd};

use cmd_compile::Pass;

/// The law: what `compile` leaves at status 0 is a text of the source's code, and each other status is one of those that refuse. It holds
/// of whatever passes: the list as it was before the call, and as it is behind it.
pub fn compile_ends(_before: &[Box<dyn Pass>], _behind: &[Box<dyn Pass>])
    ensures { CompileEnds (passing (λ p n c e. wrote p n c e) (λ p. made p) _before.now _behind.now) }
{}

/// The law: `run` doesn't refuse a text that `compile` wrote for what it holds: it is a code's text, and the code loads.
pub fn texts_are_taken()
    ensures { TextsAreTaken }
{}

/// The law: at each end of its run the output and the end are those of the source's meaning on the same input, unless the source makes a
/// wild access or nests over `ACTIVE_CALL_LIMIT` calls there.
pub fn runs_tell()
    ensures { RunsTell }
{}

/// The law: where the source ends with a value, `run` of the text answers 0 with some number of steps, if the text is within its limit.
pub fn runs_end()
    ensures { RunsEnd }
{}
