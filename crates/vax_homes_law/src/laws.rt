// Laws of homes. Each function does nothing; its clause is the law.
ghost use Rattle.vax_homes_law.specs.Claims.{HomedCodesFollow};
ghost use Rattle.vax_homes_law.specs.Ready.{HomesAreFit};
ghost use Rattle.vax_homes_law.specs.Laying.{PiecesAreLaid};
ghost use Rattle.vax_homes_law.specs.Calling.{CallsStandBeside, ReturnsStandBeside};

/// The law: instructions whose run is confined do with locals in registers what they do without.
pub fn homed_codes_follow()
    ensures { HomedCodesFollow }
{}

/// The law: the homes of a body are paired one to one, and its instructions are ready for them.
pub fn homes_are_fit()
    ensures { HomesAreFit }
{}

/// The law: what a call's instructions may touch lies apart from its homes.
pub fn pieces_are_laid()
    ensures { PiecesAreLaid }
{}

/// The law: a call from a state beside another comes to one beside that to which it comes from the first.
pub fn calls_stand_beside()
    ensures { CallsStandBeside }
{}

/// The law: so does a return.
pub fn returns_stand_beside()
    ensures { ReturnsStandBeside }
{}
