// What is known while a function is read.
ghost use Rattle.std.specs.Prelude.{◌≡◌, OnOk, None};
ghost use Rattle.c_typed_scope.specs.Scopes.{find, with_name};
ghost use Rattle.c_typed_scope.specs.Views.{scope};

use crate::room::Room;
use c_typed_scope::{Blocks, Data, Entry};
use c_types::CType;
use gg_base::Name;
use std::alloc::{AllocError, Global};

/// What is in scope and laid out while a function is read; of its automatic locals so far that are no memory locals the
/// types, and the numbers of those that are declared `register`; and the block of its memory locals.
#[derive(Drop)]
pub struct Environment {
    pub blocks: Blocks,
    pub locals: Vec<CType>,
    pub registers: Vec<u32>,
    pub room: Room,
    pub layout: Data,
}

/// Declares a name that the innermost block doesn't declare yet.
#[tactic(auto, unfolding(c_typed_scope::specs::Scopes::with_name))]
pub fn declare(
    alloc: Global,
    blocks: &mut Blocks,
    name: &Name,
    entry: Entry,
) -> Result<(), AllocError>
    requires { find blocks.old.here name.now ≡ None }
    ensures { OnOk result (scope blocks.new ≡ with_name name.now entry (scope blocks.old)) }
{
    let name = Vec::from_slice(alloc, name.as_slice())?;
    blocks.here.add(name, entry)
}
