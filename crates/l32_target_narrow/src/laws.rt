// The law. The function does nothing; its clause is the law.
ghost use Rattle.l32_target_narrow.specs.Laws.{EffectsAreNarrow};

/// The law: the constants of the effect of a template, and of a line that saves or reloads, are longwords.
pub fn effects_are_narrow()
    ensures { EffectsAreNarrow }
{}
