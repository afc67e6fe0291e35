//! How many instructions the code of a generated source takes.
#![tactic(auto)]

ghost use Rattle.gg_load_bound.specs.Claims.{GeneratedCodesAreBounded};

use gg_load_meaning::generated_source_runs;
use gg_load_reads::generated_source_has_program;

/// The law: the code that is selected of the generated source of k functions, up to 1,000, ends within K (k + 9) instructions, K being one
/// more than the number of the code's items. It does nothing.
pub fn generated_codes_are_bounded()
    ensures { GeneratedCodesAreBounded }
{
    generated_source_has_program();
    generated_source_runs();
}
