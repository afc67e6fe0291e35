// The law. The function does nothing; its clause is the law.
ghost use Rattle.judging_effects.specs.Laws.{EffectsHoldReads};

/// The law: where the terms of a template's effect can be read, so can what its lines read.
pub fn effects_hold_reads()
    ensures { EffectsHoldReads }
{}
