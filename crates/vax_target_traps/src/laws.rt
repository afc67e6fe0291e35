// The law. The function does nothing; its clause is the law.
ghost use Rattle.vax_target_traps.specs.Laws.{ZeroDivisorsTrap};

/// The law: where a divisor is zero, the lines of a rule trap.
pub fn zero_divisors_trap()
    ensures { ZeroDivisorsTrap }
{}
