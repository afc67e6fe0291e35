// Results that are made in a register and pushed.

use crate::parts::{divides, general, plain, result_register, with_one, with_result};
use crate::window::{Join, Window, join_all};
use gg_base::NoMemory;
use std::alloc::Global;
use vax_core::{Base, Code, Instr, Op, Reg};
use vax_validated::Change;

/// Removal of pushes of results: `op ..,r` / `pushl r` becomes `op ..,-(sp)`, and `movl x,r` / `pushl r` becomes `pushl x`, where nothing
/// reads r behind them. A division stays, since a zero divisor traps before the stack grows.
#[derive(Drop)]
pub struct PushedResult;

// Whether an instruction pushes a register.
fn pushes(instr: &Instr, r: Reg) -> bool {
    match (instr.op, instr.operands.as_slice()) {
        (Op::Pushl, [operand]) => general(operand) == Some(r),
        _ => false,
    }
}

// The instruction with its result pushed.
fn pushed(alloc: Global, instr: &Instr) -> Result<Instr, NoMemory> {
    match (instr.op, instr.operands.as_slice()) {
        (Op::Movl, [from, _]) => with_one(alloc, Op::Pushl, from),
        _ => with_result(alloc, instr, &plain(Base::Dec(Reg::Sp))),
    }
}

impl Join for PushedResult {
    fn join(&self, window: Window) -> Result<Option<Instr>, NoMemory> {
        let first = window.first;
        match result_register(first) {
            Some(r) if pushes(window.second, r) && window.is_dead(r) && !divides(first) => {
                Ok(Some(pushed(window.alloc, first)?))
            }
            _ => Ok(None),
        }
    }
}

impl Change for PushedResult {
    fn change(&mut self, alloc: Global, code: &Code) -> Result<Code, NoMemory> {
        join_all(alloc, code, self)
    }
}
