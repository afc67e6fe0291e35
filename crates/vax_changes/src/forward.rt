// Copies that are read.

use crate::available::Available;
use crate::copies::{Copies, Source};
use crate::parts::{immediate_base, steps};
use gg_base::{NoMemory, Size};
use std::alloc::Global;
use vax_core::{Access, Base, Code, CodeItem, Instr, Operand, OperandKind, Operands, Reg};
use vax_validated::Change;
use vax_validated::copying::{copy_item, copy_target, with_area_of};

/// Copy propagation: where r is a copy of x, which is a register or a number, on all ways that lead there, x is read in place of r. What is
/// left of r is for dead code elimination. Copies of registers are forgotten where loops begin and behind calls, where numbers alone are
/// shown to be known.
#[derive(Drop)]
pub struct Forward;

/// What is read in place of copies.
#[derive(Clone, Copy)]
struct Reading {
    alloc: Global,
    copies: Copies,
}

impl Reading {
    // The register to read in place of one in an address.
    fn register(&self, r: Reg) -> Reg {
        match self.copies.source(r) {
            Some(Source::Register(q)) => q,
            Some(Source::Number(_)) | None => r,
        }
    }

    // What is read in place of a register at a size.
    fn read(&self, size: Size, r: Reg) -> Base {
        let register = self.register(r);
        let number = match self.copies.number(r) {
            Some(n) => Some(n),
            None => self.copies.number(register),
        };
        match (number, size) {
            (Some(n), Size::Long) => immediate_base(n),
            _ => Base::Reg(register),
        }
    }

    fn base(&self, kind: OperandKind, base: &Base) -> Result<Base, NoMemory> {
        match base {
            Base::Reg(r) if matches!(kind.access, Access::Read) => Ok(self.read(kind.size, *r)),
            Base::Def(r) => Ok(Base::Def(self.register(*r))),
            Base::Disp(a, r) => Ok(Base::Disp(a.copy(self.alloc)?, self.register(*r))),
            Base::DispDef(a, r) => Ok(Base::DispDef(a.copy(self.alloc)?, self.register(*r))),
            other => other.copy(self.alloc),
        }
    }

    fn operand(&self, kind: OperandKind, operand: &Operand) -> Result<Operand, NoMemory> {
        let index = match operand.index {
            None => None,
            Some(r) => Some(self.register(r)),
        };
        Ok(Operand {
            base: self.base(kind, &operand.base)?,
            index,
        })
    }

    // The instruction with sources in place of copies.
    fn instr(&self, instr: &Instr) -> Result<Instr, NoMemory> {
        let mut operands = Operands::with_room(self.alloc, 3)?;
        for (kind, operand) in instr
            .op
            .shape()
            .operands
            .iter()
            .zip(instr.operands.as_slice())
        {
            if operands.as_slice().len() < 3 {
                operands.push(self.operand(*kind, operand)?)?;
            }
        }
        let target = copy_target(self.alloc, &instr.target)?;
        Ok(Instr {
            op: instr.op,
            operands,
            target,
        })
    }

    // The item with sources in place of copies: none where it steps a register.
    fn item(&self, item: &CodeItem) -> Result<CodeItem, NoMemory> {
        match item {
            CodeItem::Instr(instr) if !instr.operands.as_slice().iter().any(steps) => {
                Ok(CodeItem::Instr(self.instr(instr)?))
            }
            _ => copy_item(self.alloc, item),
        }
    }
}

impl Change for Forward {
    fn change(&mut self, alloc: Global, code: &Code) -> Result<Code, NoMemory> {
        let items = code.items.as_slice();
        let mut available = Available::of(alloc, items)?;
        let mut changed = Vec::new(alloc);
        for (place, item) in items.iter().enumerate() {
            let reading = Reading {
                alloc,
                copies: available.here(),
            };
            changed.push(reading.item(item)?)?;
            available.pass(place, item);
        }
        with_area_of(alloc, code, changed)
    }
}
