// The blocks that are open, and what their names stand for.
ghost use Rattle.std.specs.Prelude.{◌≡◌, ◌++◌, ◌∷◌, [], OnOk, None, Some};
ghost use Rattle.c_typed_scope.specs.Scopes.{find, find_outer, later, lookup, is_taken, with_name, enter, leave};

use crate::block::Block;
use crate::entry::Entry;
use std::alloc::{AllocError, Global};

/// The blocks that are open; the innermost is `here`, and the last of `outer` is the one around it.
#[derive(Drop)]
pub struct Blocks {
    pub outer: Vec<Block>,
    pub here: Block,
}

ghost use Rattle.c_typed_scope.specs.Views.{scope};

impl Blocks {
    /// What a name stands for: its innermost declaration.
    #[tactic(auto, unfolding(crate::specs::Scopes::lookup))]
    pub fn lookup(&self, name: &[u8]) -> Option<Entry>
        ensures { result ≡ lookup (scope self.now) name.now }
    {
        match self.here.find(name) {
            Some(entry) => Some(entry),
            None => find_outer(&self.outer, name),
        }
    }

    /// Whether the innermost block declares the name.
    #[tactic(auto, unfolding(crate::specs::Scopes::is_taken))]
    pub fn is_taken(&self, name: &[u8]) -> bool
        ensures { result ≡ is_taken (scope self.now) name.now }
    {
        self.here.find(name).is_some()
    }

    /// Begins a block.
    #[tactic(auto, unfolding(crate::specs::Scopes::enter))]
    pub fn enter(&mut self, alloc: Global) -> Result<(), AllocError>
        ensures { OnOk result (scope self.new ≡ enter (scope self.old)) }
    {
        let here = std::mem::replace(&mut self.here, Block::new(alloc));
        self.outer.push(here)?;
        Ok(())
    }

    /// Ends the innermost block.
    #[tactic(auto, unfolding(crate::specs::Scopes::leave))]
    pub fn leave(&mut self)
        ensures { scope self.new ≡ leave (scope self.old) }
    {
        if let Some(here) = self.outer.pop() {
            self.here = here;
        }
    }
}

// The last of these blocks that declares a name decides.
fn find_outer(blocks: &[Block], name: &[u8]) -> Option<Entry>
    ensures { result ≡ find_outer blocks.now name.now }
{
    blocks.iter().rev().find_map(|block| block.find(name))
}
