// Trees with answers.
ghost use Rattle.std.specs.Prelude.{◌≡◌, ◌<◌, ◌↔◌, All, IsTrue};
ghost use Rattle.lr_check.specs.Tree.{IsSample};

use std::marker::Model;
use tree_core::Tok;

/// A node: its token, the numbers of its kids, which are lower than its own, and what its questions
/// are answered, in order. A node that stands in several places is several nodes of the tree.
#[derive(Drop)]
pub struct SampleNode {
    tok: Tok,
    kids: Vec<u32>,
    answers: Vec<bool>,
}

impl Model for SampleNode {
    ghost use Rattle.lr_check.specs.Tree.{Node};

    ghost Value = { Node };

    ghost view = { λ n. record { tok = n.tok; kids = n.kids.items; answers = n.answers.items } };
}

impl SampleNode {
    pub fn new(tok: Tok, kids: Vec<u32>, answers: Vec<bool>) -> Self
        ensures { result ≡ record { tok = tok; kids = kids.items; answers = answers.items } }
    {
        SampleNode { tok, kids, answers }
    }

    pub fn tok(&self) -> Tok
        ensures { result ≡ self.now.tok }
    {
        self.tok
    }

    pub fn kids(&self) -> &[u32]
        ensures { result.now ≡ self.now.kids }
    {
        &self.kids
    }

    pub fn answers(&self) -> &[bool]
        ensures { result.now ≡ self.now.answers }
    {
        &self.answers
    }
}

/// A tree, whose root is the last node.
#[derive(Drop)]
pub struct Sample {
    nodes: Vec<SampleNode>,
}

impl Model for Sample {
    ghost use Rattle.std.specs.Prelude.{List};
    ghost use Rattle.lr_check.specs.Tree.{Node};

    ghost Value = { List Node };

    ghost view = { λ s. s.nodes.items };
}

fn are_below(kids: &[u32], number: usize) -> bool
    ensures { IsTrue result ↔ All (λ k. k < number) kids.now }
{
    kids.iter().all(|kid| (*kid as usize) < number)
}

fn are_numbered(nodes: &[SampleNode]) -> bool
    ensures { IsTrue result ↔ IsSample nodes.now }
{
    !nodes.is_empty()
        && nodes
            .iter()
            .enumerate()
            .all(|(number, node)| are_below(node.kids(), number))
}

impl Sample {
    pub fn new(nodes: Vec<SampleNode>) -> Self
        ensures { result ≡ nodes.items }
    {
        Sample { nodes }
    }

    pub fn nodes(&self) -> &[SampleNode]
        ensures { result.now ≡ self.now }
    {
        &self.nodes
    }

    /// Whether there is a node, and each kid has a lower number than its node.
    pub fn is_numbered(&self) -> bool
        ensures { IsTrue result ↔ IsSample self.now }
    {
        are_numbered(&self.nodes)
    }
}

/// How a parse ends: it accepts; it blocks, or loops, before the token with this offset, from 0; or the
/// tree has more than 100,000 tokens.
#[derive(Clone, Copy, Debug, PartialEq, Eq)]
pub enum Outcome {
    Done,
    Blocks(u64),
    Loops(u64),
    Long,
}
