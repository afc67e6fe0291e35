// Sets of classes, and what follows from them along edges.
ghost use Rattle.std.specs.Prelude.{◌≡◌, IfOk, slice_index_or, slice_set, replicate, false, true};

use gg_base::NoMemory;
use std::alloc::Global;
use std::marker::Model;

/// From one class to another.
#[derive(Clone, Copy, Debug, PartialEq, Eq)]
pub struct Edge {
    pub from: u16,
    pub to: u16,
}

/// A set of classes: for each class whether it is marked.
#[derive(Drop)]
pub struct ClassSet {
    marks: Vec<bool>,
}

impl Model for ClassSet {
    ghost use Rattle.std.specs.Prelude.{List, Bool};

    ghost Value = { List Bool };

    ghost view = { λ s. s.marks.items };
}

impl ClassSet {
    /// No class is in the set.
    pub fn empty(alloc: Global, classes: usize) -> Result<Self, NoMemory>
        ensures { IfOk result (λ set. set ≡ replicate classes false) }
    {
        let marks = vec![in alloc; false; classes]?;
        Ok(ClassSet { marks })
    }

    pub fn contains(&self, class: u16) -> bool
        ensures { result ≡ slice_index_or self.now class false }
    {
        let at = class as usize;
        at < self.marks.len() && self.marks[at]
    }

    pub fn insert(&mut self, class: u16)
        ensures { self.new ≡ slice_set self.old class true }
    {
        let at = class as usize;
        if at < self.marks.len() {
            self.marks[at] = true;
        }
    }
}

ghost use Rattle.lr_tables.specs.Marks.{spread, rounds};

// Adds where each edge leads from a class that is in the set by then.
fn spread(edges: &[Edge], set: &mut ClassSet)
    ensures { set.new ≡ spread edges.now set.old }
{
    for edge in edges {
        if set.contains(edge.from) {
            set.insert(edge.to);
        }
    }
}

/// Adds each class to which edges lead from one that is in the set.
pub fn spread_all(edges: &[Edge], classes: usize, set: &mut ClassSet)
    ensures { set.new ≡ rounds classes edges.now set.old }
{
    for _round in 0..classes {
        spread(edges, set);
    }
}
