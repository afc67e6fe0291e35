// The laws. Each function does nothing; its clause is the law.
ghost use Rattle.vax_target_saving.specs.Laws.{FreeWordsStore, LinesSave, LinesReload, TargetSaves};

/// The law: a number goes into a free word of the frame, where it is read; every other operand, the state of trees, the room and the live
/// frames are kept.
pub fn free_words_store()
    ensures { FreeWordsStore }
{}

/// The law: a line that was checked to save a value, a place or an address puts it into its slot; all else is kept.
pub fn lines_save()
    ensures { LinesSave }
{}

/// The law: a line that was checked to reload brings a slot's longword back to its register; all else is kept.
pub fn lines_reload()
    ensures { LinesReload }
{}

/// The law: the VAX keeps the laws of a target on what is saved and reloaded: these lines do so, and are instructions that can be written.
pub fn target_saves()
    ensures { TargetSaves }
{}
