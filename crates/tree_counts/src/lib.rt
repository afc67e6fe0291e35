//! What is counted in a run of trees: its calls and its jumps backward.
#![tactic(auto)]

ghost use Rattle.tree_counts.specs.Counted.{TalliesAreRuns};

/// The law: a tally of a run has the run's output and its end, whatever it counts. It does nothing.
#[tactic(auto, using(crate::proofs::Law::tallies_are_runs))]
pub fn tallies_are_runs()
    ensures { TalliesAreRuns }
{}
