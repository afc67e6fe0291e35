// The laws. The functions do nothing; their clauses are the laws.
ghost use Rattle.lr_checked_sets.specs.Claims.{SumsAreOfItemSets, StatesAreCounted};

/// The law: what the check counts as sums of a description's numbered states are the summaries of its item sets, each once.
pub fn sums_are_of_item_sets()
    ensures { SumsAreOfItemSets }
{}

/// The law: the tables of a description have as many states as it has item sets.
pub fn states_are_counted()
    ensures { StatesAreCounted }
{}
