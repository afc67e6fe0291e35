// Tests of registers whose signs are known.

use crate::live::Live;
use gg_base::{NoMemory, Size};
use std::alloc::Global;
use vax_core::{Access, Base, Code, CodeItem, Instr, Op, Operand, OperandKind, Reg};
use vax_machine::function::{Action, Function, action_of};
use vax_validated::Change;
use vax_validated::copying::{copy_item, with_area_of};

/// Redundant test elimination: drops `tstl r` right behind an instruction that computed a longword into r, or moved one from there, where
/// nothing reads C behind the test.
#[derive(Drop)]
pub struct SpareTest;

fn is_register(operand: &Operand, r: Reg) -> bool {
    match &operand.base {
        Base::Reg(own) => *own == r,
        _ => false,
    }
}

// The register that an instruction tests.
fn tested(instr: &Instr) -> Option<Reg> {
    match (instr.op, instr.operands.as_slice()) {
        (
            Op::Tstl,
            [
                Operand {
                    base: Base::Reg(r),
                    index: None,
                },
            ],
        ) => Some(*r),
        _ => None,
    }
}

fn is_long_result(kind: &OperandKind) -> bool {
    matches!(kind.access, Access::Modify | Access::Write) && matches!(kind.size, Size::Long)
}

// Whether N and Z are those of the register behind an instruction.
fn tells(instr: &Instr, r: Reg) -> bool {
    let operands = instr.operands.as_slice();
    let (Some(first), Some(last)) = (operands.first(), operands.last()) else {
        return false;
    };
    match action_of(instr.op) {
        Action::Compute(function) => {
            let moved = matches!(function, Function::Copy(Size::Long))
                && matches!(instr.op, Op::Movl)
                && is_register(first, r);
            let ends = instr.op.shape().operands.last().is_some_and(is_long_result);
            moved || (ends && is_register(last, r))
        }
        Action::Push => is_register(first, r),
        Action::Branch(_) | Action::Call | Action::Return => false,
    }
}

// Whether an item is a test that an instruction in front of it spares.
fn is_spare(live: &Live, front: Option<&Instr>, place: usize, item: &CodeItem) -> bool {
    let (Some(front), CodeItem::Instr(instr)) = (front, item) else {
        return false;
    };
    match tested(instr) {
        None => false,
        Some(r) => tells(front, r) && !live.behind(place, instr).carry,
    }
}

impl Change for SpareTest {
    fn change(&mut self, alloc: Global, code: &Code) -> Result<Code, NoMemory> {
        let items = code.items.as_slice();
        let live = Live::of(alloc, items)?;
        let mut kept = Vec::new(alloc);
        let mut front: Option<&Instr> = None;
        for (place, item) in items.iter().enumerate() {
            if is_spare(&live, front, place, item) {
                continue;
            }
            kept.push(copy_item(alloc, item)?)?;
            front = match item {
                CodeItem::Instr(instr) => Some(instr),
                CodeItem::Label(_) | CodeItem::Globl(_) | CodeItem::Mask(_) => None,
            };
        }
        with_area_of(alloc, code, kept)
    }
}
