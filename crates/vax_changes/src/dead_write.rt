// Writes to registers that nothing reads.

use crate::live::Live;
use gg_base::NoMemory;
use std::alloc::Global;
use vax_core::Code;
use vax_validated::Change;
use vax_validated::copying::{copy_item, with_area_of};

/// Dead code elimination: drops each instruction that does nothing but write registers and condition codes which no instruction reads
/// before they are written again, or that moves a register to itself.
#[derive(Drop)]
pub struct DeadWrite;

impl Change for DeadWrite {
    fn change(&mut self, alloc: Global, code: &Code) -> Result<Code, NoMemory> {
        let items = code.items.as_slice();
        let live = Live::of(alloc, items)?;
        let mut kept = Vec::new(alloc);
        for (place, item) in items.iter().enumerate() {
            if !live.is_idle_item(place, item) {
                kept.push(copy_item(alloc, item)?)?;
            }
        }
        with_area_of(alloc, code, kept)
    }
}
