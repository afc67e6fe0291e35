//! How much is counted in the run of a program's trees: no more than in the program's.
#![tactic(auto)]

ghost use Rattle.c_lower_counts.specs.Claim.{LoweringCountsNoMore};

/// The law: the trees of a program that typing accepts make no more calls and jumps backward than the program's run counts, but for the
/// zeros that its declarations set. It does nothing.
#[tactic(auto, using(crate::proofs::Law::lowering_counts_no_more))]
pub fn lowering_counts_no_more()
    ensures { LoweringCountsNoMore }
{}
