// Laws of programs whose functions want other locals in registers. The functions do nothing; their clauses are the laws.
ghost use Rattle.tree_homes.specs.Claims.{IsRehomedAnyhow, RehomedIsValid, RehomedRunsAlike, RehomedFollows, RehomedIsOne, DeclaredIsSame};

use crate::choice::HomeChoice;

/// Whatever a choice lists: a program that is rehomed by it is one of which the laws below speak.
pub fn choices_are_any<H: HomeChoice>(homes: &H)
    ensures { IsRehomedAnyhow (λ f l. H.chooses homes.now f l) }
{
    let _ = homes;
}

/// A rehomed program is valid where the first one is.
pub fn rehomed_is_valid()
    ensures { RehomedIsValid }
{}

/// On each input it does the same, tree for tree.
pub fn rehomed_runs_alike()
    ensures { RehomedRunsAlike }
{}

/// What the first one's run follows, its run follows.
pub fn rehomed_follows()
    ensures { RehomedFollows }
{}

/// By a choice that picks one list of each function there is one rehomed program.
pub fn rehomed_is_one()
    ensures { RehomedIsOne }
{}

/// With the locals that the source declares `register` a valid program is what it was.
pub fn declared_is_same()
    ensures { DeclaredIsSame }
{}
