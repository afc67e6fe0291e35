// The law of `load`. The function does nothing; its clause is the law, of passes as they are before a call and behind it.
ghost use Rattle.cmd_compile.specs.Passing.{passing};
ghost use Rattle.gg_headline.specs.Loading.{SpentLoadsAreLong};

use c_typed_one::sources_have_one_program;
use cmd_compile::Pass;
use gg_load_bound::generated_codes_are_bounded;
use gg_load_reads::generated_source_has_program;

/// The law: where `load D K` answers 16, and its passes changed no code, the text's code has so many items that 100,000,000 instructions are
/// fewer than K + 9 times one more than their number.
pub fn spent_loads_are_long(_before: &[Box<dyn Pass>], _behind: &[Box<dyn Pass>])
    ensures { SpentLoadsAreLong (passing (λ p n c e. wrote p n c e) (λ p. made p) _before.now _behind.now) }
{
    generated_source_has_program();
    sources_have_one_program();
    generated_codes_are_bounded();
}
