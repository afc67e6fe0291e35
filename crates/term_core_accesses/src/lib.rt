//! The memory that a term reads, and that its normal form reads the same. Each function does nothing; its clause is the law.
#![tactic(auto)]

ghost use Rattle.term_core_accesses.specs.Keeping.{NormKeepsAccesses, NormIsSafe, SafeByAccesses};

/// A term and its normal form make the same accesses, and divide by zero in the same states.
pub fn norm_keeps_accesses()
    ensures { NormKeepsAccesses }
{}

/// They are safe in the same states.
pub fn norm_is_safe()
    ensures { NormIsSafe }
{}

/// A term is safe where its symbols have numbers and each of its accesses lies in the area.
pub fn safe_by_accesses()
    ensures { SafeByAccesses }
{}
