// What a node is asked.
ghost use Rattle.std.specs.Prelude.{◌≡◌, ◌++◌, [], ◌∷◌, OnOk, IfOk};
ghost use Rattle.lr_check_drawn.specs.Asked.{with_kid, with_taken, asked_by, ends_by};

use gg_base::NoMemory;
use lr_check_found::{Leads, Seen, candidate};
use lr_tables::Choice;
use md_reader::Rule;
use std::alloc::Global;
use std::marker::Model;

// What a settling's node is answered, in order, and the depths at which its tree asks below its list, each
// time answered no.
#[derive(Drop)]
pub(crate) struct Asked {
    pub(crate) own: Vec<bool>,
    pub(crate) depths: Vec<usize>,
}

impl Model for Asked {
    ghost use Rattle.lr_check_drawn.specs.Asked.{AskedView};

    ghost Value = { AskedView };

    ghost view = { λ a. record { own = a.own.items; depths = a.depths.items } };
}

impl Asked {
    pub fn new(alloc: Global) -> Self
        ensures { result ≡ record { own = []; depths = [] } }
    {
        Asked {
            own: Vec::new(alloc),
            depths: Vec::new(alloc),
        }
    }

    pub fn copied(alloc: Global, own: &[bool], depths: &[usize]) -> Result<Self, NoMemory>
        ensures { IfOk result (λ a. a ≡ record { own = own.now; depths = depths.now }) }
    {
        let mut asked = Asked::new(alloc);
        asked.own.extend_from_slice(own)?;
        asked.depths.extend_from_slice(depths)?;
        Ok(asked)
    }

    /// What the node is answered.
    pub fn into_own(self) -> Vec<bool>
        ensures { result.items ≡ self.own }
    {
        let Asked { own, .. } = self;
        own
    }

    fn push_depth(&mut self, size: usize, depth: usize) -> Result<(), NoMemory>
        ensures { OnOk result (self.new ≡ with_kid self.old size (depth ∷ [])) }
    {
        if depth >= size {
            self.depths.push(depth - size)?;
        } else if size - depth == 1 {
            self.own.push(false)?;
        }
        Ok(())
    }

    // The questions that a kid's tree asks below its list, where its parent's list has so many symbols.
    pub fn push_kid(&mut self, size: usize, depths: &[usize]) -> Result<(), NoMemory>
        ensures { OnOk result (self.new ≡ with_kid self.old size depths.now) }
    {
        for depth in depths {
            self.push_depth(size, *depth)?;
        }
        Ok(())
    }

    // One question before the reduction to the class, or there.
    fn push_seen(&mut self, seen: Seen, class: u16) -> Result<(), NoMemory>
        ensures { OnOk result (self.new ≡ asked_by self.old seen class) }
    {
        match seen.leads {
            Leads::Whole(left) => {
                if left != class {
                    self.own.push(false)?;
                } else if seen.asks {
                    self.own.push(true)?;
                }
            }
            Leads::Out(more) => {
                if more > 0 {
                    self.depths.push(more - 1)?;
                }
            }
            Leads::Inside => {}
        }
        Ok(())
    }

    // The questions until the list of so many symbols is reduced to the class.
    pub fn push_taken(
        &mut self,
        rules: &[Rule],
        choices: &[Choice],
        size: usize,
        class: u16,
    ) -> Result<(), NoMemory>
        ensures { OnOk result (self.new ≡ with_taken self.old rules.now choices.now size class) }
    {
        for choice in choices {
            let seen = candidate(rules, *choice, size);
            self.push_seen(seen, class)?;
            if ends(seen, class) {
                return Ok(());
            }
        }
        Ok(())
    }
}

// Whether nothing is asked behind it: it is a shift, or the reduction to the class.
fn ends(seen: Seen, class: u16) -> bool
    ensures { result ≡ ends_by seen class }
{
    match seen.leads {
        Leads::Whole(left) => left == class,
        Leads::Out(more) => more == 0,
        Leads::Inside => false,
    }
}
