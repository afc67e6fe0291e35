// The law. The function does nothing; its clause is the law.
ghost use Rattle.vax_target_laws.specs.Laws.{VaxIsLawful};

/// The law: the VAX keeps all laws that selection asks of a target.
pub fn vax_is_lawful()
    ensures { VaxIsLawful }
{}
