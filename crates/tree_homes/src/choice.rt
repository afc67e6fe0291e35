// Choices of locals that are to live in registers.
ghost use Rattle.std.specs.Prelude.{ℕ, List, IfOk};
ghost use Rattle.tree_core.specs.declared.program.TreeFn.{TreeFn};

use gg_base::NoMemory;
use std::alloc::Global;
use tree_core::TreeFn;

/// A choice of locals that are to live in registers. It decides nothing but speed: whatever it lists, a program does the same.
pub trait HomeChoice {
    /// Which lists it may choose of a function.
    ghost chooses: { Self → TreeFn → List ℕ → Type 0 };

    /// Numbers of locals of the function, the most wanted first. A number that is no local's, or that has been listed, doesn't count.
    fn choose(&self, alloc: Global, function: &TreeFn) -> Result<Vec<u32>, NoMemory>
        ensures { IfOk result (λ chosen. chooses self.now function.now chosen.items) };
}

/// The locals that the source declares `register`, in order.
pub struct Declared;

impl HomeChoice for Declared {
    ghost use Rattle.std.specs.Prelude.{◌≡◌};

    ghost chooses = { λ _ f chosen. chosen ≡ f.wanted };

    fn choose(&self, alloc: Global, function: &TreeFn) -> Result<Vec<u32>, NoMemory> {
        Ok(Vec::from_slice(alloc, function.wanted.as_slice())?)
    }
}
