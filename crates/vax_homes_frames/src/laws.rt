// Laws of calls at home. Each function does nothing; its clause is the law.
ghost use Rattle.vax_homes_frames.specs.Live.{PlacesStayHome, ItemsStayHome};
ghost use Rattle.vax_homes_frames.specs.Trees.{AllTreesStayHome, EffectsStayHome, EndCodesStayHome};
ghost use Rattle.vax_homes_frames.specs.Passing.{CallsBeginAtHome, RunsBeginAtHome, ReturnsAgreeAtHome, LastReturnEndsAtHome};
ghost use Rattle.vax_homes_frames.specs.Plain.{HomelessAgree};

/// The law: without homes a machine is at home where it stands for the tree state by itself and its frames are intact.
pub fn homeless_agree()
    ensures { HomelessAgree }
{}

/// The law: place, code and whether the run is over don't matter.
pub fn places_stay_home()
    ensures { PlacesStayHome }
{}

/// The law: which items are still to come doesn't matter.
pub fn items_stay_home()
    ensures { ItemsStayHome }
{}

/// The law: behind a tree's code all calls are at home again.
pub fn all_trees_stay_home()
    ensures { AllTreesStayHome }
{}

/// The law: what a tree's code does without homes it does at home.
pub fn effects_stay_home()
    ensures { EffectsStayHome }
{}

/// The law: the end of a function's code returns 0.
pub fn end_codes_stay_home()
    ensures { EndCodesStayHome }
{}

/// The law: a call comes to a machine in which the function begins, with its homes.
pub fn calls_begin_at_home()
    ensures { CallsBeginAtHome }
{}

/// The law: so does the first call of a run.
pub fn runs_begin_at_home()
    ensures { RunsBeginAtHome }
{}

/// The law: a return with a value comes to the caller, with the caller's homes.
pub fn returns_agree_at_home()
    ensures { ReturnsAgreeAtHome }
{}

/// The law: the outermost call's return ends the run.
pub fn last_return_ends_at_home()
    ensures { LastReturnEndsAtHome }
{}
