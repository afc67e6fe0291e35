// The laws. The functions do nothing; their clauses are the laws.
ghost use Rattle.lr_check_samples.specs.Claims.{FoundTreesLead, ContextsLead, SamplesBlock, SamplesLoop, FaultsHaveSamples};
ghost use Rattle.lr_check_samples.specs.Claims.{StopsEnd, DrawnTreesStand, DrawnSamplesStop};

/// The law: the tree of a found settling is parsed to its list by its own answers, on each stack that fits.
pub fn found_trees_lead()
    ensures { FoundTreesLead }
{}

/// The law: the parse of the tree round a found place comes to the place.
pub fn contexts_lead()
    ensures { ContextsLead }
{}

/// The law: a sample of a gap or of a dead list is a typed statement whose parse blocks by its own answers.
pub fn samples_block()
    ensures { SamplesBlock }
{}

/// The law: a sample of a circle is a typed statement whose parse turns by its own answers.
pub fn samples_loop()
    ensures { SamplesLoop }
{}

/// The law: each found settling has its tree, each place a tree round it, and each fault of what was found a sample.
pub fn faults_have_samples()
    ensures { FaultsHaveSamples }
{}

/// The law: what blocks step by step ends blocked or turning, and what turns ends turning. It does nothing.
pub fn stops_end()
    ensures { StopsEnd }
{}

/// The law: nodes that are drawn for what was found unfold to its trees.
pub fn drawn_trees_stand()
    ensures { DrawnTreesStand }
{}

/// The law: what is drawn for a fault stands for a typed statement whose parse blocks, or turns, by its own answers.
pub fn drawn_samples_stop()
    ensures { DrawnSamplesStop }
{}
