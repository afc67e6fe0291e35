// The laws. The functions do nothing; their clauses are the laws.
ghost use Rattle.l32_target_fits.specs.Laws.{SlotsFit, ShapesFit};

/// The law: a slot may stand for a value, and a deferred slot for a place or an address.
pub fn slots_fit()
    ensures { SlotsFit }
{}

/// The law: a shape, with its holes filled, may stand for what its rule gives.
pub fn shapes_fit()
    ensures { ShapesFit }
{}
