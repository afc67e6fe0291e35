//! How much a compiled code counts: no more calls and jumps backward than its trees.
#![tactic(auto)]

ghost use Rattle.gg_compile_tallies.specs.Claims.{WrittenCodesCountNoMore};

/// The law: where the run of the trees ends, the run of a code that is written of them ends so, and counts no more. It does nothing.
pub fn written_codes_count_no_more()
    ensures { WrittenCodesCountNoMore }
{}
