// The law. The function does nothing; its clause is the law.
ghost use Rattle.l32_target_places.specs.Laws.{StoresGoToPlaces};

/// The law: where a template of L32 stores to a symbol's home, the symbol is a place.
pub fn stores_go_to_places()
    ensures { StoresGoToPlaces }
{}
