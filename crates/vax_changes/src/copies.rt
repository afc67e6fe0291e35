// Copies of registers and numbers.

use crate::parts::{general, number};
use crate::uses::effect_of;
use bitflags::Flags;
use vax_core::{Instr, Op, Operand, Reg, RegSet};

/// What a register is a copy of.
#[derive(Clone, Copy)]
pub enum Source {
    Register(Reg),
    Number(u32),
}

impl Source {
    fn same(self, other: Source) -> bool {
        match (self, other) {
            (Source::Register(q), Source::Register(r)) => q == r,
            (Source::Number(n), Source::Number(m)) => n == m,
            (Source::Register(_), Source::Number(_)) | (Source::Number(_), Source::Register(_)) => {
                false
            }
        }
    }
}

// What is known both here and there.
fn both(here: Option<Source>, there: Option<Source>) -> Option<Source> {
    match (here, there) {
        (Some(one), Some(other)) if one.same(other) => Some(one),
        _ => None,
    }
}

// Whether the register of a number is among these.
fn is_among(number: usize, registers: RegSet) -> bool {
    match Reg::from_number(number) {
        Some(r) => registers.intersects(r.set()),
        None => false,
    }
}

/// For each of r0 to r11 what it is a copy of, where that is known.
#[derive(Clone, Copy)]
pub struct Copies {
    each: [Option<Source>; 12],
}

impl Copies {
    /// Nothing is known.
    pub const NONE: Copies = Copies { each: [None; 12] };

    /// What a register is a copy of.
    pub fn source(&self, r: Reg) -> Option<Source> {
        if r.number() < 12 {
            self.each[r.number()]
        } else {
            None
        }
    }

    fn hold(&mut self, r: Reg, source: Source) {
        if r.number() < 12 {
            self.each[r.number()] = Some(source);
        }
    }

    /// The number that a register is a copy of.
    pub fn number(&self, r: Reg) -> Option<u32> {
        match self.source(r) {
            Some(Source::Number(n)) => Some(n),
            Some(Source::Register(_)) | None => None,
        }
    }

    // What is left of a copy behind writes to these registers: of one of a register that is written, its number.
    fn left(&self, source: Source, written: RegSet) -> Option<Source> {
        match source {
            Source::Register(r) if written.intersects(r.set()) => {
                Some(Source::Number(self.number(r)?))
            }
            _ => Some(source),
        }
    }

    /// What of it is known behind writes to these registers.
    pub fn forget(&mut self, written: RegSet) {
        let before = *self;
        for i in 0..12 {
            let old = before.each[i];
            self.each[i] = match old {
                Some(source) if !is_among(i, written) => before.left(source, written),
                _ => None,
            };
        }
    }

    // What is left of a copy where only numbers are known.
    fn number_of(&self, source: Source) -> Option<Source> {
        match source {
            Source::Register(r) => Some(Source::Number(self.number(r)?)),
            Source::Number(n) => Some(Source::Number(n)),
        }
    }

    /// What of it is known where only numbers are.
    pub fn forget_registers(&mut self) {
        let before = *self;
        for i in 0..12 {
            let old = before.each[i];
            self.each[i] = match old {
                Some(source) => before.number_of(source),
                None => None,
            };
        }
    }

    /// What is known both here and there.
    pub fn and(mut self, other: &Copies) -> Copies {
        for i in 0..12 {
            self.each[i] = both(self.each[i], other.each[i]);
        }
        self
    }

    /// How many are known.
    pub fn count(&self) -> usize {
        self.each.iter().filter(|source| source.is_some()).count()
    }

    // What a register becomes a copy of by a move.
    fn moved(&self, from: &Operand) -> Option<Source> {
        if let Some(n) = number(from) {
            return Some(Source::Number(n));
        }
        let r = general(from)?;
        match self.source(r) {
            Some(Source::Register(q)) => Some(Source::Register(q)),
            Some(Source::Number(_)) | None => Some(Source::Register(r)),
        }
    }

    // The copy that an instruction makes.
    fn made(&self, instr: &Instr) -> Option<(Reg, Source)> {
        match (instr.op, instr.operands.as_slice()) {
            (Op::Movl, [from, to]) => Some((general(to)?, self.moved(from)?)),
            (Op::Clrl, [to]) => Some((general(to)?, Source::Number(0))),
            _ => None,
        }
    }

    /// What is known behind an instruction that computes or pushes.
    pub fn pass(&mut self, instr: &Instr) {
        let made = self.made(instr);
        self.forget(effect_of(instr).writes.registers);
        match made {
            Some((r, Source::Register(q))) if q == r => {}
            Some((r, source)) => self.hold(r, source),
            None => {}
        }
    }
}
