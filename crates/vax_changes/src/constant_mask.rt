// Masks that are complemented as the program runs.

use crate::parts::{general, immediate, names, number, steps, with_three};
use crate::window::{Join, Window, join_all};
use gg_base::{NoMemory, w32};
use std::alloc::Global;
use vax_core::{Code, Instr, Op, Operand, Reg};
use vax_validated::Change;

/// Constant folding of masks: the VAX has no `and`, but clears bits. `mcoml x,r` / `bicl3 r,$k,d`, which gives x and k, becomes
/// `bicl3 $~k,x,d` where nothing reads r behind them.
#[derive(Drop)]
pub struct ConstantMask;

// What an instruction complements into a register.
fn complemented(instr: &Instr) -> Option<(&Operand, Reg)> {
    match (instr.op, instr.operands.as_slice()) {
        (Op::Mcoml, [from, to]) if !steps(from) => Some((from, general(to)?)),
        _ => None,
    }
}

// The number whose bits in a register are cleared, and where the result goes.
fn cleared(instr: &Instr, r: Reg) -> Option<(u32, &Operand)> {
    match (instr.op, instr.operands.as_slice()) {
        (Op::Bicl3, [bits, from, to]) if general(bits) == Some(r) => Some((number(from)?, to)),
        _ => None,
    }
}

impl Join for ConstantMask {
    fn join(&self, window: Window) -> Result<Option<Instr>, NoMemory> {
        let Some((from, r)) = complemented(window.first) else {
            return Ok(None);
        };
        let Some((mask, to)) = cleared(window.second, r) else {
            return Ok(None);
        };
        let is_over = general(to) == Some(r) || (window.is_dead(r) && !names(to, r));
        if !is_over {
            return Ok(None);
        }
        let mask = immediate(w32::com(mask));
        Ok(Some(with_three(window.alloc, Op::Bicl3, &mask, from, to)?))
    }
}

impl Change for ConstantMask {
    fn change(&mut self, alloc: Global, code: &Code) -> Result<Code, NoMemory> {
        join_all(alloc, code, self)
    }
}
