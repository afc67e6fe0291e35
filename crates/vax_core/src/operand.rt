// Operands.
ghost use Rattle.std.specs.Prelude.{◌≡◌, ◌<◌, ◌≤◌, [], ◌∷◌, ◌++◌, length, IfOk, OnOk};
ghost use Rattle.vax_core.specs.Registers.{base_register, named_bits, operand_bits, operand_names, IsSetOf};

use crate::{Reg, RegSet};
use bitflags::Flags;
use gg_base::Name;
use std::alloc::{AllocError, Global};
use std::marker::Model;

/// A label with an offset to it, or a number alone, on 32 bits.
#[derive(Drop)]
pub struct Addr {
    pub name: Option<Name>,
    pub offset: u32,
}

/// An operand specifier without its index.
#[derive(Drop)]
pub enum Base {
    /// `$a`: the number itself.
    Imm(Addr),
    /// `r`: the register.
    Reg(Reg),
    /// `(r)`: memory at the register.
    Def(Reg),
    /// `(r)+`: memory at the register, which is then stepped by the operand's size.
    Inc(Reg),
    /// `*(r)+`: memory at the address that stands in memory at the register, which is then stepped by 4.
    IncDef(Reg),
    /// `-(r)`: the register is stepped back by the operand's size; memory at the register.
    Dec(Reg),
    /// `d(r)`: memory at the displacement from the register.
    Disp(Addr, Reg),
    /// `*d(r)`: memory at the address that stands in memory at the displacement from the register.
    DispDef(Addr, Reg),
    /// `*$n`: memory at the address n.
    Abs(u32),
    /// `a`: memory at the label.
    Rel(Addr),
    /// `*a`: memory at the address that stands in memory at the label.
    RelDef(Addr),
}

/// An operand specifier: a base, and the register whose multiple is added to the base's address.
#[derive(Drop)]
pub struct Operand {
    pub base: Base,
    pub index: Option<Reg>,
}

impl Base {
    /// The register that it names.
    pub fn register(&self) -> Option<Reg>
        ensures { result ≡ base_register self.now }
    {
        match self {
            Base::Imm(_) | Base::Abs(_) | Base::Rel(_) | Base::RelDef(_) => None,
            Base::Reg(r)
            | Base::Def(r)
            | Base::Inc(r)
            | Base::IncDef(r)
            | Base::Dec(r)
            | Base::Disp(_, r)
            | Base::DispDef(_, r) => Some(*r),
        }
    }
}

fn set_of(r: Option<Reg>) -> RegSet
    ensures { result.0 ≡ named_bits r }
{
    match r {
        None => RegSet::empty(),
        Some(r) => r.set(),
    }
}

impl Operand {
    /// The registers among r0 to r11 that it names, as base or as index.
    pub fn registers(&self) -> RegSet
        ensures bits { result.0 ≡ operand_bits self.now }
        ensures named { IsSetOf result.0 (operand_names self.now) }
    {
        set_of(self.base.register()).union(set_of(self.index))
    }
}

impl Default for Operand {
    fn default() -> Self {
        Operand {
            base: Base::Reg(Reg::R0),
            index: None,
        }
    }
}

/// At most three operands, in memory of their own.
#[derive(Drop)]
pub struct Operands {
    held: Vec<Operand>,
}

impl Model for Operands {
    ghost use Rattle.std.specs.Prelude.{List, ◌≡◌, ◌≤◌, length};
    ghost use Rattle.vax_core.specs.declared.operand.Operand.{Operand};

    ghost Value = { List Operand };

    ghost view = { λ o. o.held.items };

    ghost invariant = { λ o. length o.held.items ≤ 3 };
}

impl Operands {
    /// No operands, which needs no memory.
    pub fn new(alloc: Global) -> Self
        ensures { result ≡ [] }
    {
        Operands {
            held: Vec::new(alloc),
        }
    }

    /// No operands, with room for so many, at most three.
    pub fn with_room(alloc: Global, count: usize) -> Result<Self, AllocError>
        requires { count ≤ 3 }
        ensures { IfOk result (λ o. o ≡ []) }
    {
        Ok(Operands {
            held: Vec::with_capacity(alloc, count)?,
        })
    }

    /// One more operand, behind the others, where there are fewer than three. It needs memory where no room is left.
    pub fn push(&mut self, o: Operand) -> Result<(), AllocError>
        requires { length self.old < 3 }
        ensures { OnOk result (self.new ≡ self.old ++ o ∷ []) }
    {
        self.held.push(o)?;
        Ok(())
    }

    /// The operands from left to right.
    pub fn as_slice(&self) -> &[Operand]
        ensures { result.now ≡ self.now }
    {
        self.held.as_slice()
    }
}
