// The law. The function does nothing; its clause is the law.
ghost use Rattle.l32_target_saving.specs.Laws.{LinesSave};

/// The law: a line that was checked to save or to reload does so, and all else is kept.
pub fn lines_save()
    ensures { LinesSave }
{}
