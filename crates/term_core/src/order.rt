// The order of terms.

ghost use Rattle.std.specs.Prelude.{◌≡◌, IfOk};
ghost use Rattle.term_core.specs.Shape.{shape_of};
ghost use Rattle.term_core.specs.Order.{order};
ghost use Rattle.term_core.specs.NodeOrder.{node_rank, node_order};

use crate::node::{Node, open};
use crate::term::Term;
use gg_base::NoMemory;
use std::alloc::Global;
use std::cmp::Ordering;

// Where a node stands among the forms.
fn node_rank(n: Node) -> u8
    ensures { result ≡ node_rank n }
{
    match n {
        Node::Constant(_) => 0,
        Node::Symbol(_) => 1,
        Node::LastResult => 2,
        Node::Memory(_) => 3,
        Node::Unary(_) => 4,
        Node::Binary(_) => 5,
    }
}

fn compare_nodes(a: Node, b: Node) -> Ordering
    ensures { result ≡ node_order a b }
{
    match (a, b) {
        (Node::Constant(n), Node::Constant(m)) => n.cmp(&m),
        (Node::Symbol(i), Node::Symbol(j)) => i.cmp(&j),
        (Node::Memory(z), Node::Memory(y)) => z.bytes().cmp(&y.bytes()),
        (Node::Unary(o), Node::Unary(p)) => o.rank().cmp(&p.rank()),
        (Node::Binary(o), Node::Binary(p)) => o.rank().cmp(&p.rank()),
        (a, b) => node_rank(a).cmp(&node_rank(b)),
    }
}

/// How two terms stand in the order of terms: by their forms, and then by their parts. Deep terms take no deep stack, and no more is read
/// than up to the first difference.
#[tactic(auto, using(crate::proofs::Comparing::order_by_nodes, crate::proofs::Waiting::waiting_push, crate::proofs::Waiting::weight_push))]
pub fn compare(alloc: Global, a: &Term, b: &Term) -> Result<Ordering, NoMemory>
    ensures { IfOk result (λ o. o ≡ order (shape_of a.now) (shape_of b.now)) }
{
    let mut left = Vec::new(alloc);
    let mut right = Vec::new(alloc);
    left.push(a)?;
    right.push(b)?;
    while let Some(s) = left.pop() {
        let Some(t) = right.pop() else {
            return Ok(Ordering::Equal);
        };
        let n = open(&mut left, s)?;
        let m = open(&mut right, t)?;
        match compare_nodes(n, m) {
            Ordering::Equal => {}
            unequal => return Ok(unequal),
        }
    }
    Ok(Ordering::Equal)
}
