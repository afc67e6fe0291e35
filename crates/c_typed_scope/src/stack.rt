// The second stack, on which the memory locals of calls lie.
ghost use Rattle.std.specs.Prelude.{◌≡◌, OnOk, [], ◌<◌, length};
ghost use Rattle.c_typed_scope.specs.Answers.{OnlyTurns};
ghost use Rattle.c_typed_scope.specs.Stack.{with_stack, opened};
ghost use Rattle.c_typed_scope.specs.Layout.{placed};
ghost use Rattle.c_typed_scope.specs.Answers.{Turns};
ghost use Rattle.c_typed_scope.specs.Views.{area};
ghost use Rattle.std.specs.Prelude.{codes};

use crate::contents::{Contents, fill};
use crate::data::{Data, lay};
use c_types::TypeFault;
use c_types::typed::BLOCK_LIMIT;
use gg_base::{Bytes, Name};
use std::alloc::{AllocError, Global};

// One of the two objects, aligned to a longword and empty at first.
fn lay_part(
    alloc: Global,
    layout: &mut Data,
    at: u32,
    label: &[u8],
    size: u32,
) -> Result<u32, TypeFault>
    ensures { Turns (λ n. n) result (area layout.new) (placed at label.now 4 size [] (area layout.old)) }
{
    let label = Name::from_vec(Vec::from_slice(alloc, label)?);
    lay(
        alloc,
        layout,
        at,
        label,
        4,
        size,
        Bytes::from_vec(Vec::new(alloc)),
    )
}

// The pointer holds the address of the stack's area, which is zeros.
fn open(alloc: Global, layout: &mut Data, pointer: u32, stack: u32) -> Result<(), AllocError>
    ensures { OnOk result (area layout.new ≡ opened pointer stack (area layout.old)) }
{
    let mut held = Contents::new(alloc);
    held.put_link(&layout.objects, stack)?;
    fill(layout, pointer, 4, held)?;
    fill(layout, stack, BLOCK_LIMIT, Contents::new(alloc))
}

/// Lays the stack's pointer and its area behind the other objects. DataFull, at this place, where they end more than
/// `AREA_LIMIT` bytes past address `AREA_START`.
#[tactic(auto, unfolding(crate::specs::Stack::with_stack))]
pub fn lay_stack(alloc: Global, layout: &mut Data, at: u32) -> Result<(), TypeFault>
    ensures { OnlyTurns result (area layout.new) (with_stack at (area layout.old)) }
{
    let pointer = lay_part(alloc, layout, at, b"T_sp".as_slice(), 4)?;
    let stack = lay_part(alloc, layout, at, b"T_area".as_slice(), BLOCK_LIMIT)?;
    open(alloc, layout, pointer, stack)?;
    Ok(())
}
