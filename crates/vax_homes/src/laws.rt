// Laws of homes. Each function does nothing; its clause is the law.
ghost use Rattle.vax_homes.specs.Rows.{Rows, NothingWanted};

/// The law: what some bodies become.
pub fn worked_rows()
    ensures { Rows }
{}

/// The law: where nothing is wanted the body stays as it is.
pub fn nothing_wanted()
    ensures { NothingWanted }
{}
