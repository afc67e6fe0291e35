// Results that are made in a register and moved on.

use crate::parts::{divides, general, is_deferred, names, result_register, steps, with_result};
use crate::window::{Join, Window, join_all};
use gg_base::NoMemory;
use std::alloc::Global;
use vax_core::{Code, Instr, Op, Operand, Reg};
use vax_validated::Change;

/// Removal of moves of results: `op ..,r` / `movl r,d` becomes `op ..,d` where nothing reads r behind them.
#[derive(Drop)]
pub struct DirectResult;

// Where an instruction moves a register.
fn moved_to(instr: &Instr, r: Reg) -> Option<&Operand> {
    match (instr.op, instr.operands.as_slice()) {
        (Op::Movl, [from, to]) if general(from) == Some(r) => Some(to),
        _ => None,
    }
}

// Whether the result of the first instruction may be made at an operand and not in a register: the operand's address is the same in front of
// the instruction, and a zero divisor traps before an address is read from memory.
fn takes(window: Window, to: &Operand, r: Reg) -> bool {
    let is_elsewhere = window.is_dead(r) && !names(to, r) && !steps(to);
    let is_early = divides(window.first) && is_deferred(to);
    general(to) == Some(r) || (is_elsewhere && !is_early)
}

impl Join for DirectResult {
    fn join(&self, window: Window) -> Result<Option<Instr>, NoMemory> {
        let Some(r) = result_register(window.first) else {
            return Ok(None);
        };
        match moved_to(window.second, r) {
            Some(to) if takes(window, to, r) => {
                Ok(Some(with_result(window.alloc, window.first, to)?))
            }
            _ => Ok(None),
        }
    }
}

impl Change for DirectResult {
    fn change(&mut self, alloc: Global, code: &Code) -> Result<Code, NoMemory> {
        join_all(alloc, code, self)
    }
}
