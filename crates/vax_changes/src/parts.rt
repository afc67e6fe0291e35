// Parts of instructions.

use bitflags::Flags;
use gg_base::{NoMemory, Size};
use std::alloc::Global;
use vax_core::{Access, Addr, Base, Instr, Op, Operand, Operands, Reg};
use vax_machine::function::{Action, Function, action_of};

/// Which of r0 to r11 an operand is.
pub fn general(operand: &Operand) -> Option<Reg> {
    match &operand.base {
        Base::Reg(r) if r.number() < 12 => Some(*r),
        _ => None,
    }
}

/// The number that an operand is.
pub fn number(operand: &Operand) -> Option<u32> {
    match &operand.base {
        Base::Imm(Addr { name: None, offset }) => Some(*offset),
        _ => None,
    }
}

/// Whether an operand steps a register.
pub fn steps(operand: &Operand) -> bool {
    matches!(operand.base, Base::Inc(_) | Base::IncDef(_) | Base::Dec(_))
}

/// Whether an operand's address stands in memory.
pub fn is_deferred(operand: &Operand) -> bool {
    matches!(
        operand.base,
        Base::IncDef(_) | Base::DispDef(_, _) | Base::RelDef(_)
    )
}

/// Whether an operand names a register, as itself, as base or as index.
pub fn names(operand: &Operand, r: Reg) -> bool {
    operand.registers().intersects(r.set())
}

/// Whether an instruction moves one of r0 to r11 to itself.
pub fn moves_to_itself(instr: &Instr) -> bool {
    match (instr.op, instr.operands.as_slice()) {
        (Op::Movl, [from, to]) => general(from).is_some_and(|r| general(to) == Some(r)),
        _ => false,
    }
}

/// Whether an instruction divides.
pub fn divides(instr: &Instr) -> bool {
    matches!(action_of(instr.op), Action::Compute(Function::Divide))
}

/// Which of r0 to r11 holds the result of an instruction that writes it without reading it, as a longword.
pub fn result_register(instr: &Instr) -> Option<Reg> {
    match instr.op.shape().operands.last() {
        Some(kind) if matches!(kind.access, Access::Write) && matches!(kind.size, Size::Long) => {}
        _ => return None,
    }
    match instr.operands.as_slice() {
        [.., last] => general(last),
        [] => None,
    }
}

/// The operand that is this base.
pub fn plain(base: Base) -> Operand {
    Operand { base, index: None }
}

/// This number as an operand's base.
pub fn immediate_base(offset: u32) -> Base {
    Base::Imm(Addr { name: None, offset })
}

/// The operand that is this number.
pub fn immediate(offset: u32) -> Operand {
    plain(immediate_base(offset))
}

/// An instruction with one operand.
pub fn with_one(alloc: Global, op: Op, operand: &Operand) -> Result<Instr, NoMemory> {
    let mut operands = Operands::with_room(alloc, 3)?;
    operands.push(operand.copy(alloc)?)?;
    Ok(Instr {
        op,
        operands,
        target: None,
    })
}

/// An instruction with two operands.
pub fn with_two(alloc: Global, op: Op, a: &Operand, b: &Operand) -> Result<Instr, NoMemory> {
    let mut operands = Operands::with_room(alloc, 3)?;
    operands.push(a.copy(alloc)?)?;
    operands.push(b.copy(alloc)?)?;
    Ok(Instr {
        op,
        operands,
        target: None,
    })
}

/// An instruction with three operands.
pub fn with_three(
    alloc: Global,
    op: Op,
    a: &Operand,
    b: &Operand,
    c: &Operand,
) -> Result<Instr, NoMemory> {
    let mut operands = Operands::with_room(alloc, 3)?;
    operands.push(a.copy(alloc)?)?;
    operands.push(b.copy(alloc)?)?;
    operands.push(c.copy(alloc)?)?;
    Ok(Instr {
        op,
        operands,
        target: None,
    })
}

/// The instruction with another last operand.
pub fn with_result(alloc: Global, instr: &Instr, to: &Operand) -> Result<Instr, NoMemory> {
    match instr.operands.as_slice() {
        [a, _] => with_two(alloc, instr.op, a, to),
        [a, b, _] => with_three(alloc, instr.op, a, b, to),
        _ => with_one(alloc, instr.op, to),
    }
}
