// The law. The function does nothing; its clause is the law.
ghost use Rattle.l32_target_laws.specs.Laws.{L32IsLawful};

/// The law: L32 keeps all laws that selection asks of a target.
pub fn l32_is_lawful()
    ensures { L32IsLawful }
{}
