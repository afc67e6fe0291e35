// The laws. Each function does nothing; its clause is the law.
ghost use Rattle.run_leads.specs.Laws.{LeadsCompose, LeadsAsk, HaltsAnswer};

/// The law: steps lead one after another, and to the end of a run.
pub fn leads_compose()
    ensures { LeadsCompose }
{}

/// The law: what is asked of the run behind steps is asked of the run before them, with their bytes in front.
pub fn leads_ask()
    ensures { LeadsAsk }
{}

/// The law: a run that is over is what is asked of it.
pub fn halts_answer()
    ensures { HaltsAnswer }
{}
