// The laws. Each function does nothing; its clause is the law.
ghost use Rattle.vax_bound.specs.Bound.{RunsAreBounded};

/// The law: a run of a code takes at most K times (t + 1) instructions, where t is how many calls and jumps backward it makes, and K is one
/// more than the number of the code's items.
#[tactic(auto, using(crate::proofs::Law::runs_are_bounded))]
pub fn runs_are_bounded()
    ensures { RunsAreBounded }
{}
