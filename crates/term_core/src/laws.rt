// Laws of terms. Each function does nothing; its clause is the law.
ghost use Rattle.std.specs.Prelude.{◌≡◌, List, []};
ghost use Rattle.term_core.specs.declared.facts.Fact.{Fact};
ghost use Rattle.std.specs.Ordering.{ordering_reverse};
ghost use Rattle.term_core.specs.Shape.{Shape};
ghost use Rattle.term_core.specs.Order.{order};
ghost use Rattle.term_core.specs.Normal.{AreSettled};
ghost use Rattle.term_core.specs.Norm.{norm};
ghost use Rattle.term_core.specs.Value.{State, value, Respects};
ghost use Rattle.term_core.specs.Equations.{Equation, Reaches};

use std::cmp::Ordering;

/// The two sides of each equation have one value in every state in which the symbols have values as the facts say.
#[tactic(auto, using(crate::proofs::Keeping::equations_keep))]
pub fn equations_keep_values()
    ensures { (facts : List Fact) (m : State) (s t : Shape) → Respects facts m → Equation facts s t → value m s ≡ value m t }
{}

/// The normal form is reached from the term by the equations, used at any part and one after the other.
#[tactic(auto, using(crate::proofs::Reaching::norm_reached))]
pub fn norm_is_reached()
    ensures { (facts : List Fact) (s : Shape) → Reaches facts s (norm facts s) }
{}

/// A term and its normal form have one value in every state in which the symbols have values as the facts say.
#[tactic(auto, using(crate::proofs::Keeping::norm_keeps))]
pub fn norm_keeps_values()
    ensures { (facts : List Fact) (m : State) (s : Shape) → Respects facts m → value m (norm facts s) ≡ value m s }
{}

/// Where nothing is known of the symbols, a term and its normal form have one value in every state.
#[tactic(auto, using(crate::proofs::Keeping::norm_alone_keeps))]
pub fn norm_alone_keeps_values()
    ensures { (m : State) (s : Shape) → value m (norm [] s) ≡ value m s }
{}

/// Normal forms are normal, where each symbol's least one that is spelled like it is so for itself.
#[tactic(auto, using(crate::proofs::Settled::norm_twice))]
pub fn norm_is_normal()
    ensures { (facts : List Fact) (s : Shape) → AreSettled facts → norm facts (norm facts s) ≡ norm facts s }
{}

/// Where nothing is known of the symbols, normal forms are normal.
#[tactic(auto, using(crate::proofs::Settled::norm_alone_twice))]
pub fn norm_alone_is_normal()
    ensures { (s : Shape) → norm [] (norm [] s) ≡ norm [] s }
{}

/// Terms that are equal in the order are the same, and two terms that are exchanged stand the other way.
#[tactic(auto, using(crate::proofs::Ordered::order_same, crate::proofs::Ordered::order_turned))]
pub fn order_tells_apart()
    ensures same { (s t : Shape) → order s t ≡ Ordering.Equal → s ≡ t }
    ensures turned { (s t : Shape) → order s t ≡ ordering_reverse (order t s) }
{}
