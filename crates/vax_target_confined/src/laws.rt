// The law of this crate: a function that does nothing; its clause is the law.
ghost use Rattle.vax_target_confined.specs.Claims.{ReadingsAreConfined};

/// The law: what an operand reads or names, as the target says it, the confined machine finds.
pub fn readings_are_confined()
    ensures { ReadingsAreConfined }
{}
