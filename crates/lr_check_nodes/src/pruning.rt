// What a sample's root reaches, and nothing else.
ghost use Rattle.std.specs.Prelude.{◌≡◌, ◌<◌, ◌+◌, IfOk, OnOk, length, slice_index_or};
ghost use Rattle.lr_check.specs.Tree.{IsSample};
ghost use Rattle.lr_check.specs.Statement.{IsStatement};
ghost use Rattle.lr_check_nodes.specs.Pruned.{IsPruned, AreReached, Reaching, Pruning, with_marks, renumbered, with_node, without_node};

use gg_base::{NoMemory, number_of};
use lr_check::SampleNode;
use std::alloc::Global;
use std::marker::Model;

fn mark(marks: &mut [bool], kids: &[u32])
    ensures { marks.new ≡ with_marks marks.old kids.now }
{
    for kid in kids {
        let number = *kid as usize;
        if number < marks.len() {
            marks[number] = true;
        }
    }
}

// Marks what a marked node reaches.
fn look(marks: &mut [bool], nodes: &[SampleNode], number: usize)
    requires sample { IsSample nodes.now }
    requires there { number < length nodes.now }
    requires reaching { Reaching nodes.now marks.old (number + 1) }
    ensures { Reaching nodes.now marks.new number }
{
    if marks[number] {
        mark(marks, nodes[number].kids());
    }
}

// Which nodes the root, which is the last, reaches.
fn reached(alloc: Global, nodes: &[SampleNode]) -> Result<Vec<bool>, NoMemory>
    requires { IsSample nodes.now }
    ensures { IfOk result (λ m. AreReached nodes.now m.items) }
{
    let mut marks = vec![in alloc; false; nodes.len()]?;
    marks[nodes.len() - 1] = true;
    for number in (0..nodes.len()).rev() {
        look(&mut marks, nodes, number);
    }
    Ok(marks)
}

// The nodes that are left of the first ones, and the new number of each of these.
#[derive(Drop)]
struct Pruned {
    nodes: Vec<SampleNode>,
    numbers: Vec<u32>,
}

impl Model for Pruned {
    ghost use Rattle.lr_check_nodes.specs.Pruned.{PrunedView};

    ghost Value = { PrunedView };

    ghost view = { λ p. record { nodes = p.nodes.items; numbers = p.numbers.items } };
}

impl Pruned {
    fn number(&self, old: u32) -> u32
        ensures { result ≡ slice_index_or self.now.numbers old 0 }
    {
        self.numbers.get(old as usize).copied().unwrap_or(0)
    }

    fn renumbered(&self, alloc: Global, kids: &[u32]) -> Result<Vec<u32>, NoMemory>
        ensures { IfOk result (λ v. v.items ≡ renumbered self.now.numbers kids.now) }
    {
        let numbers = kids.iter().map(|kid| self.number(*kid)).collect(alloc)?;
        Ok(numbers)
    }

    fn keep(&mut self, alloc: Global, node: &SampleNode) -> Result<(), NoMemory>
        ensures { OnOk result (self.new ≡ with_node self.old node.now) }
    {
        let number = number_of(self.nodes.len())?;
        let kids = self.renumbered(alloc, node.kids())?;
        let mut answers = Vec::new(alloc);
        answers.extend_from_slice(node.answers())?;
        self.nodes.push(SampleNode::new(node.tok(), kids, answers))?;
        self.numbers.push(number)?;
        Ok(())
    }

    fn leave_out(&mut self) -> Result<(), NoMemory>
        ensures { OnOk result (self.new ≡ without_node self.old) }
    {
        self.numbers.push(0)?;
        Ok(())
    }

    // The next node, if it is marked.
    fn take_next(
        &mut self,
        alloc: Global,
        nodes: &[SampleNode],
        marks: &[bool],
        number: usize,
    ) -> Result<(), NoMemory>
        requires sample { IsSample nodes.now }
        requires there { number < length nodes.now }
        requires marks { length marks.now ≡ length nodes.now }
        requires pruning { Pruning nodes.now marks.now self.old number }
        ensures { OnOk result (Pruning nodes.now marks.now self.new (number + 1)) }
    {
        if marks[number] {
            self.keep(alloc, &nodes[number])
        } else {
            self.leave_out()
        }
    }
}

/// The nodes that the root, which is the last, reaches, in order.
pub fn prune(alloc: Global, nodes: &[SampleNode]) -> Result<Vec<SampleNode>, NoMemory>
    requires { IsStatement nodes.now }
    ensures { IfOk result (λ p. IsPruned nodes.now p.items) }
{
    let marks = reached(alloc, nodes)?;
    let mut pruned = Pruned {
        nodes: Vec::new(alloc),
        numbers: Vec::new(alloc),
    };
    for number in 0..nodes.len() {
        pruned.take_next(alloc, nodes, &marks, number)?;
    }
    let Pruned { nodes, .. } = pruned;
    Ok(nodes)
}
