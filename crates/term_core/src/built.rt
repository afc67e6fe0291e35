// Normal terms built of nodes.

ghost use Rattle.std.specs.Prelude.{◌≡◌, ◌∷◌, [], IfOk, OnOk};
ghost use Rattle.term_core.specs.Shape.{shape_of};
ghost use Rattle.term_core.specs.Built.{shapes, top_shape, lower_shapes, build_node, built};

use crate::build::{make_binary, make_unary};
use crate::facts::{Fact, same_as};
use crate::node::Node;
use crate::term::Term;
use gg_base::NoMemory;
use std::alloc::Global;

/// The terms that are built, the last one on top.
#[derive(Drop)]
pub struct Built {
    terms: Vec<Term>,
}

impl Built {
    pub fn new(alloc: Global) -> Self
        ensures { shapes result ≡ [] }
    {
        Built {
            terms: Vec::new(alloc),
        }
    }

    fn put(&mut self, t: Term) -> Result<(), NoMemory>
        ensures { OnOk result (shapes self.new ≡ shape_of t ∷ shapes self.old) }
    {
        self.terms.push(t)?;
        Ok(())
    }

    /// Takes the top off; where there is none it is the constant 0.
    pub fn take(&mut self) -> Term
        ensures taken { shape_of result ≡ top_shape (shapes self.old) }
        ensures left { shapes self.new ≡ lower_shapes (shapes self.old) }
    {
        match self.terms.pop() {
            Some(t) => t,
            None => Term::K(0),
        }
    }

    fn build(&mut self, alloc: Global, facts: &[Fact], node: Node) -> Result<(), NoMemory>
        ensures { OnOk result (shapes self.new ≡ build_node facts.now node (shapes self.old)) }
    {
        let made = match node {
            Node::Constant(n) => Term::K(n),
            Node::Symbol(i) => Term::V(same_as(facts, i)),
            Node::LastResult => Term::Res,
            Node::Memory(size) => Term::Mem(size, Box::new(alloc, self.take())?),
            Node::Unary(op) => make_unary(alloc, facts, op, self.take())?,
            Node::Binary(op) => {
                let a = self.take();
                make_binary(alloc, facts, op, a, self.take())?
            }
        };
        self.put(made)
    }
}

/// The normal terms that are built of these nodes.
pub fn built_of(alloc: Global, facts: &[Fact], nodes: &[Node]) -> Result<Built, NoMemory>
    ensures { IfOk result (λ b. shapes b ≡ built facts.now nodes.now) }
{
    let mut built = Built::new(alloc);
    for node in nodes.iter().rev() {
        built.build(alloc, facts, *node)?;
    }
    Ok(built)
}
