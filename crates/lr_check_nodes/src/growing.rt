// A sample's nodes, as they are made.
ghost use Rattle.std.specs.Prelude.{◌≡◌, [], IfOk};
ghost use Rattle.tree_core.specs.Grammar.{kids};
ghost use Rattle.lr_check.specs.Statement.{KidsFit};
ghost use Rattle.lr_check_nodes.specs.Growing.{AreWhole, HasLast, HasTreeOf, HaveKids, HasTreeFrom, smallest};

use gg_base::{NoMemory, number_of};
use lr_check::SampleNode;
use std::alloc::Global;
use std::marker::Model;
use tree_core::{Sort, Tok};

/// Nodes that are made one by one, each behind its kids.
#[derive(Drop)]
pub struct Growing {
    nodes: Vec<SampleNode>,
}

impl Model for Growing {
    ghost use Rattle.std.specs.Prelude.{List};
    ghost use Rattle.lr_check.specs.Tree.{Node};
    ghost use Rattle.lr_check_nodes.specs.Growing.{AreWhole};

    ghost Value = { List Node };

    ghost view = { λ g. g.nodes.items };

    ghost invariant = { λ g. AreWhole g.nodes.items };
}

// The token of a smallest tree for the sort: it has no kid, or one that is long.
fn smallest(sort: Sort) -> Tok
    ensures { result ≡ smallest sort }
{
    match sort {
        Sort::Byte => Tok::Ncb,
        Sort::Word => Tok::Ncw,
        Sort::Long => Tok::Zero,
        Sort::PlaceB => Tok::IndirB,
        Sort::PlaceW => Tok::IndirW,
        Sort::PlaceL => Tok::Loc,
        Sort::Stmt => Tok::Jump,
    }
}

impl Growing {
    /// These nodes so far.
    pub fn from_nodes(nodes: Vec<SampleNode>) -> Self
        requires { AreWhole nodes.items }
        ensures { result ≡ nodes.items }
    {
        Growing { nodes }
    }

    /// The nodes so far.
    pub fn nodes(&self) -> &[SampleNode]
        ensures { result.now ≡ self.now }
    {
        &self.nodes
    }

    /// Each node's kids stand before it and fit its token. The call does nothing: its clause is the fact.
    pub fn is_whole(&self)
        ensures { AreWhole self.now }
    {
        let _nodes = &self.nodes;
    }

    /// Adds a node with these kids, and answers its number.
    pub fn add(
        &mut self,
        alloc: Global,
        token: Tok,
        numbers: &[u32],
        answers: &[bool],
    ) -> Result<u32, NoMemory>
        requires { KidsFit self.old numbers.now (kids token) }
        ensures { IfOk result (λ n. HasLast self.old self.new token numbers.now answers.now n) }
    {
        let number = number_of(self.nodes.len())?;
        let mut kids = Vec::new(alloc);
        kids.extend_from_slice(numbers)?;
        let mut own = Vec::new(alloc);
        own.extend_from_slice(answers)?;
        self.nodes.push(SampleNode::new(token, kids, own))?;
        Ok(number)
    }

    // Adds a smallest tree for the sort.
    fn add_smallest(&mut self, alloc: Global, sort: Sort) -> Result<u32, NoMemory>
        ensures { IfOk result (λ n. HasTreeOf self.old self.new sort n) }
    {
        let token = smallest(sort);
        if token.kids().len() == 0 {
            return self.add(alloc, token, &[], &[]);
        }
        let zero = self.add(alloc, Tok::Zero, &[], &[])?;
        self.add(alloc, token, &[zero], &[])
    }

    // Adds smallest trees for the kids of the token.
    fn add_kids(&mut self, alloc: Global, token: Tok) -> Result<Vec<u32>, NoMemory>
        ensures { IfOk result (λ v. HaveKids self.old self.new (kids token) v.items) }
    {
        self.is_whole();
        let mut numbers = Vec::new(alloc);
        for sort in token.kids() {
            let kid = self.add_smallest(alloc, *sort)?;
            numbers.push(kid)?;
        }
        Ok(numbers)
    }

    /// Adds a smallest tree that begins with the token, and answers its root's number.
    pub fn add_from(&mut self, alloc: Global, token: Tok) -> Result<u32, NoMemory>
        ensures { IfOk result (λ n. HasTreeFrom self.old self.new token n) }
    {
        let numbers = self.add_kids(alloc, token)?;
        self.add(alloc, token, &numbers, &[])
    }
}
