// The laws. Each function does nothing; its clause is the law.
ghost use Rattle.vax_pairs_checked.specs.Laws.{AcceptedCodesAreAlike};

/// The law: codes that are accepted as a pair behave alike.
pub fn accepted_codes_are_alike()
    ensures { AcceptedCodesAreAlike }
{}
