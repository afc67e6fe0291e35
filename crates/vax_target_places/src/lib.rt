//! The VAX's templates store only to symbols that are places. The function does nothing; its clause is the law.
#![tactic(auto)]

ghost use Rattle.sel_parse_effect.specs.Places.{StoresToPlaces};
ghost use Rattle.vax_target_writing.specs.vax_target_meaning.specs.Vax.{vax};

/// The law: where a template of the VAX stores to a symbol's home, the symbol is a place.
pub fn stores_go_to_places()
    ensures { StoresToPlaces vax }
{}
