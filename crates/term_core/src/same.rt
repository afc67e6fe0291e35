// When two terms are the same.

ghost use Rattle.std.specs.Prelude.{◌≡◌, ◌↔◌, IsTrue, IfOk};
ghost use Rattle.term_core.specs.Shape.{shape_of};
ghost use Rattle.term_core.specs.Order.{same_term};

use crate::order::compare;
use crate::term::Term;
use gg_base::NoMemory;
use std::alloc::Global;

/// Whether the two terms are the same: whether neither goes before the other.
pub fn same_term(alloc: Global, a: &Term, b: &Term) -> Result<bool, NoMemory>
    ensures ordered { IfOk result (λ r. r ≡ same_term (shape_of a.now) (shape_of b.now)) }
    ensures same { IfOk result (λ r. IsTrue r ↔ (shape_of a.now ≡ shape_of b.now)) }
{
    let order = compare(alloc, a, b)?;
    Ok(order.is_eq())
}
