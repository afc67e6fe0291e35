// The normal form of terms.

ghost use Rattle.std.specs.Prelude.{◌≡◌, IfOk, []};
ghost use Rattle.term_core.specs.Shape.{shape_of};
ghost use Rattle.term_core.specs.Norm.{norm};

use crate::built::built_of;
use crate::facts::Fact;
use crate::node::prefix;
use crate::term::Term;
use gg_base::NoMemory;
use std::alloc::Global;

/// The normal form of a term of whose symbols nothing is known. Deep terms take no deep stack.
pub fn norm(alloc: Global, t: &Term) -> Result<Term, NoMemory>
    ensures { IfOk result (λ r. shape_of r ≡ norm [] (shape_of t.now)) }
{
    norm_under(alloc, &[], t)
}

/// The normal form of a term of whose symbols these facts are known. Deep terms take no deep stack.
#[tactic(auto, using(crate::proofs::Building::top_is_norm))]
pub fn norm_under(alloc: Global, facts: &[Fact], t: &Term) -> Result<Term, NoMemory>
    ensures { IfOk result (λ r. shape_of r ≡ norm facts.now (shape_of t.now)) }
{
    let nodes = prefix(alloc, t)?;
    let mut built = built_of(alloc, facts, &nodes)?;
    Ok(built.take())
}
