// The laws. Each function does nothing; its clause is the law.
ghost use Rattle.vax_alike.specs.Laws.{AlikeRunsFollow, AlikeIsSame, AlikeGoesOn};

/// The law: what a code's run follows is followed by the run of each code that does the same.
pub fn alike_runs_follow()
    ensures { AlikeRunsFollow }
{}

/// The law: a code behaves as itself.
pub fn alike_is_same()
    ensures { AlikeIsSame }
{}

/// The law: what behaves alike may be put in place of a code.
pub fn alike_goes_on()
    ensures { AlikeGoesOn }
{}
