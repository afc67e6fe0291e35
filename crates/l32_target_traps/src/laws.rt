// The law. The function does nothing; its clause is the law.
ghost use Rattle.l32_target_traps.specs.Laws.{DivisionsTrap};

/// The law: the lines of a rule trap where the number by which they divide is zero.
pub fn divisions_trap()
    ensures { DivisionsTrap }
{}
