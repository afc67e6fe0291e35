// The laws. Each function does nothing; its clause is the law.
ghost use Rattle.vax_target_writing.specs.Laws.{LinesAreWritten, ShapesFit, SlotsFit, SpillsAreWritten};

/// The law: the lines of a rule that the target takes are valid instructions, with whatever their holes are filled that can be spelled.
pub fn lines_are_written()
    ensures { LinesAreWritten }
{}

/// The law: the shape of a rule may stand for what the rule gives.
pub fn shapes_fit()
    ensures { ShapesFit }
{}

/// The law: a slot may stand for a value, a place or an address.
pub fn slots_fit()
    ensures { SlotsFit }
{}

/// The law: the lines that save and reload are valid instructions.
pub fn spills_are_written()
    ensures { SpillsAreWritten }
{}
