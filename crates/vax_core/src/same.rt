// Copies of operands, and which are the same.
ghost use Rattle.std.specs.Prelude.{◌≡◌, ◌↔◌, IsTrue, IfOk};
ghost use Rattle.std.specs.Option.{option_copied};
ghost use Rattle.vax_core.specs.Same.{mode_of, mode_number, name_in, offset_in, same_name, same_register, same_base, same_operand};

use crate::{Addr, Base, Operand, Reg};
use gg_base::{Name, NoMemory};
use std::alloc::Global;

/// The addressing modes, by the names that the VAX Architecture Handbook gives them.
#[derive(Clone, Copy, Debug, PartialEq, Eq)]
pub enum Mode {
    /// `$a`
    Immediate,
    /// `r`
    Register,
    /// `(r)`
    RegisterDeferred,
    /// `(r)+`
    Autoincrement,
    /// `*(r)+`
    AutoincrementDeferred,
    /// `-(r)`
    Autodecrement,
    /// `d(r)`
    Displacement,
    /// `*d(r)`
    DisplacementDeferred,
    /// `*$n`
    Absolute,
    /// `a`
    Relative,
    /// `*a`
    RelativeDeferred,
}

impl Mode {
    // Its number in the order above.
    fn number(self) -> usize
        ensures { result ≡ mode_number self }
    {
        match self {
            Mode::Immediate => 0,
            Mode::Register => 1,
            Mode::RegisterDeferred => 2,
            Mode::Autoincrement => 3,
            Mode::AutoincrementDeferred => 4,
            Mode::Autodecrement => 5,
            Mode::Displacement => 6,
            Mode::DisplacementDeferred => 7,
            Mode::Absolute => 8,
            Mode::Relative => 9,
            Mode::RelativeDeferred => 10,
        }
    }
}

fn copy_name(alloc: Global, name: &Option<Name>) -> Result<Option<Name>, NoMemory>
    ensures { IfOk result (λ n. n ≡ name.now) }
{
    match name {
        None => Ok(None),
        Some(name) => Ok(Some(Name::from_vec(Vec::from_slice(alloc, name.as_slice())?))),
    }
}

fn same_label(a: Option<&[u8]>, b: Option<&[u8]>) -> bool
    ensures { result ≡ same_name (option_copied a.entry) (option_copied b.entry) }
{
    match (a, b) {
        (None, None) => true,
        (Some(a), Some(b)) => a == b,
        (None, Some(_)) | (Some(_), None) => false,
    }
}

fn same_register(a: Option<Reg>, b: Option<Reg>) -> bool
    ensures { result ≡ same_register a b }
{
    match (a, b) {
        (None, None) => true,
        (Some(a), Some(b)) => a.number() == b.number(),
        (None, Some(_)) | (Some(_), None) => false,
    }
}

impl Addr {
    /// Its label.
    pub fn label(&self) -> Option<&[u8]>
        ensures { self.now.name ≡ option_copied result }
    {
        match &self.name {
            None => None,
            Some(name) => Some(name.as_slice()),
        }
    }

    /// A copy of it.
    pub fn copy(&self, alloc: Global) -> Result<Self, NoMemory>
        ensures { IfOk result (λ a. a ≡ self.now) }
    {
        Ok(Addr {
            name: copy_name(alloc, &self.name)?,
            offset: self.offset,
        })
    }
}

impl Base {
    /// Its addressing mode.
    pub fn mode(&self) -> Mode
        ensures { result ≡ mode_of self.now }
    {
        match self {
            Base::Imm(_) => Mode::Immediate,
            Base::Reg(_) => Mode::Register,
            Base::Def(_) => Mode::RegisterDeferred,
            Base::Inc(_) => Mode::Autoincrement,
            Base::IncDef(_) => Mode::AutoincrementDeferred,
            Base::Dec(_) => Mode::Autodecrement,
            Base::Disp(_, _) => Mode::Displacement,
            Base::DispDef(_, _) => Mode::DisplacementDeferred,
            Base::Abs(_) => Mode::Absolute,
            Base::Rel(_) => Mode::Relative,
            Base::RelDef(_) => Mode::RelativeDeferred,
        }
    }

    /// The label in it.
    pub fn label(&self) -> Option<&[u8]>
        ensures { name_in self.now ≡ option_copied result }
    {
        match self {
            Base::Imm(a)
            | Base::Disp(a, _)
            | Base::DispDef(a, _)
            | Base::Rel(a)
            | Base::RelDef(a) => a.label(),
            Base::Reg(_)
            | Base::Def(_)
            | Base::Inc(_)
            | Base::IncDef(_)
            | Base::Dec(_)
            | Base::Abs(_) => None,
        }
    }

    /// The number in it: the offset to its label, a displacement, an immediate or an absolute address; 0 where there is none.
    pub fn offset(&self) -> u32
        ensures { result ≡ offset_in self.now }
    {
        match self {
            Base::Imm(a)
            | Base::Disp(a, _)
            | Base::DispDef(a, _)
            | Base::Rel(a)
            | Base::RelDef(a) => a.offset,
            Base::Abs(n) => *n,
            Base::Reg(_) | Base::Def(_) | Base::Inc(_) | Base::IncDef(_) | Base::Dec(_) => 0,
        }
    }

    /// Whether it is the same specifier.
    pub fn same(&self, other: &Base) -> bool
        ensures { result ≡ same_base self.now other.now }
    {
        self.mode().number() == other.mode().number()
            && same_register(self.register(), other.register())
            && same_label(self.label(), other.label())
            && self.offset() == other.offset()
    }

    /// A copy of it.
    pub fn copy(&self, alloc: Global) -> Result<Self, NoMemory>
        ensures { IfOk result (λ b. b ≡ self.now) }
    {
        Ok(match self {
            Base::Imm(a) => Base::Imm(a.copy(alloc)?),
            Base::Reg(r) => Base::Reg(*r),
            Base::Def(r) => Base::Def(*r),
            Base::Inc(r) => Base::Inc(*r),
            Base::IncDef(r) => Base::IncDef(*r),
            Base::Dec(r) => Base::Dec(*r),
            Base::Disp(a, r) => Base::Disp(a.copy(alloc)?, *r),
            Base::DispDef(a, r) => Base::DispDef(a.copy(alloc)?, *r),
            Base::Abs(n) => Base::Abs(*n),
            Base::Rel(a) => Base::Rel(a.copy(alloc)?),
            Base::RelDef(a) => Base::RelDef(a.copy(alloc)?),
        })
    }
}

fn same_operand(a: &Operand, b: &Operand) -> bool
    ensures { result ≡ same_operand a.now b.now }
{
    a.base.same(&b.base) && same_register(a.index, b.index)
}

impl Operand {
    /// A copy of it.
    pub fn copy(&self, alloc: Global) -> Result<Self, NoMemory>
        ensures { IfOk result (λ o. o ≡ self.now) }
    {
        Ok(Operand {
            base: self.base.copy(alloc)?,
            index: self.index,
        })
    }

    /// Whether it is the same operand.
    #[tactic(auto, using(crate::proofs::SameLaws::operand_is))]
    pub fn same(&self, other: &Operand) -> bool
        ensures found { result ≡ same_operand self.now other.now }
        ensures is { IsTrue result ↔ (self.now ≡ other.now) }
    {
        same_operand(self, other)
    }
}
