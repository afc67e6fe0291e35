// The laws. Each function does nothing; its clause is the law.
ghost use Rattle.vax_pairs.specs.Laws.{SameNormsAgree};

/// The law: terms with one normal form are worth the same.
#[tactic(auto, using(crate::proofs::Norming::same_norms_agree))]
pub fn same_norms_agree()
    ensures { SameNormsAgree }
{}
