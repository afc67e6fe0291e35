// Laws of runs. Each function does nothing; its clause is the law.
ghost use Rattle.gg_base.specs.Runs.{Runs, OneEnd};
ghost use Rattle.gg_base.specs.Lasting.{Lasts};
ghost use Rattle.gg_base.specs.Follows.{Follows, Forward, NeverBroken};
ghost use Rattle.std.specs.Prelude.{ℕ};

/// What follows a follower that never breaks follows the first.
#[tactic(auto, using(crate::proofs::Composing::composes))]
pub fn follows_composes()
    ensures { (a b c : Runs) → Follows a b → NeverBroken b → Follows b c → Follows a c }
{}

/// A run with one end follows another, which never breaks, where it does forwards all that the other does.
#[tactic(auto, using(crate::proofs::Following::follows))]
pub fn forward_is_enough()
    ensures { (a b : Runs) → NeverBroken a → ((k : ℕ) → Forward k a b) → OneEnd b → Follows a b }
{}

/// A run that lasts from each number to the next has one end.
#[tactic(auto, using(crate::proofs::Lasting::one_end_of))]
pub fn lasting_is_enough()
    ensures { (r : Runs) → ((k : ℕ) → Lasts k r) → OneEnd r }
{}
