// The blocks of memory locals, which lie on a second stack in the data area.

ghost use Rattle.std.specs.Prelude.{◌≡◌, MatchOption, None, Some};
ghost use Rattle.gg_base.specs.Runs.{Runs};
ghost use Rattle.c_meaning.specs.declared.flow.Flow.{Flow};
ghost use Rattle.c_meaning.specs.State.{State, address};
ghost use Rattle.c_meaning.specs.Values.{Behind};
ghost use Rattle.c_meaning.specs.Blocks.{pointer_number, area_number, beginning, claimed, released};
ghost use Rattle.c_meaning.specs.Parts.{state, taken, changed_if};

use crate::store::{Spot, Store, address_at};
use c_types::typed::BLOCK_LIMIT;
use c_types::{CType, Integer};
use gg_base::{Finish, w32};
use tree_core::Object;

const INT: CType = CType::Integer(Integer::Int);

// The number of the stack's pointer, behind which its area is the last object.
fn pointer_number(objects: &[Object]) -> usize
    ensures { result ≡ pointer_number objects.now }
{
    objects.len().saturating_sub(2)
}

// Where a block of so many bytes begins, where the pointer points to `begin`. None where the stack has no such room.
fn beginning(area: u32, block: u32, begin: u32) -> Option<u32>
    ensures { result ≡ beginning area block begin }
{
    let room = w32::sub(w32::add(area, BLOCK_LIMIT), begin);
    if room < block { None } else { Some(begin) }
}

impl<'a> Store<'a> {
    /// Takes a block of so many bytes for the call that begins: it lies where the stack's pointer points to, which then moves
    /// behind it. An end where the stack has no such room.
    pub(crate) fn claim(&mut self, objects: &[Object], block: u32) -> Result<(), Finish>
        ensures { (κ : State → Runs) → claimed objects.now block κ (state self.old) ≡ taken result (state self.new) κ }
    {
        if block == 0 {
            return Ok(());
        }
        let number = pointer_number(objects);
        let pointer = address_at(objects, number).ok_or(Finish::Wild)?;
        let begin = self.held(INT, Spot::Memory(pointer)).ok_or(Finish::Wild)?;
        let area = address_at(objects, number + 1).ok_or(Finish::Wild)?;
        let begin = beginning(area, block, begin).ok_or(Finish::Trapped)?;
        if !self.put(INT, Spot::Memory(pointer), w32::add(begin, block)) {
            return Err(Finish::Wild);
        }
        self.call.block = Some(begin);
        Ok(())
    }

    /// Gives back the block of so many bytes of the call that ends: the stack's pointer points to it again. False where there
    /// is no such pointer, or no block.
    pub(crate) fn release(&mut self, objects: &[Object], block: u32) -> bool
        ensures { (κ : Behind) (w : Flow) → released objects.now block κ w (state self.old) ≡ changed_if result (state self.new) (κ w) }
    {
        if block == 0 {
            return true;
        }
        let Some(begin) = self.call.block else {
            return false;
        };
        match address_at(objects, pointer_number(objects)) {
            None => false,
            Some(pointer) => self.put(INT, Spot::Memory(pointer), begin),
        }
    }
}
