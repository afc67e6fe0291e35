// Operands.
ghost use Rattle.std.specs.Prelude.{◌≡◌, ◌<◌, ◌≤◌, [], ◌∷◌, ◌++◌, length, IfOk, OnOk};

use std::alloc::{AllocError, Global};
use std::marker::Model;
use vax_core::Addr;

/// The register that a displacement counts from.
#[derive(Clone, Copy, Debug, PartialEq, Eq)]
pub enum Base32 {
    /// `aN`, N from 0 to 11: a general register.
    A(u8),
    /// The frame pointer.
    Fp,
    /// The stack pointer.
    Sp,
}

/// An operand.
#[derive(Drop)]
pub enum Operand32 {
    /// `$n`: the number itself, on 32 bits.
    Num(u32),
    /// `aN`, N from 0 to 11: the register.
    Reg(u8),
    /// `n(r)`: memory at the displacement from the register.
    At(u32, Base32),
    /// `@n(r)`: memory at the address that stands in memory at the displacement from the register.
    Deferred(u32, Base32),
    /// `a`: memory at the label.
    Addr(Addr),
}

/// At most three operands, in memory of their own.
#[derive(Drop)]
pub struct Operands32 {
    held: Vec<Operand32>,
}

impl Model for Operands32 {
    ghost use Rattle.std.specs.Prelude.{List, ◌≡◌, ◌≤◌, length};
    ghost use Rattle.l32_core.specs.declared.operand.Operand32.{Operand32};

    ghost Value = { List Operand32 };

    ghost view = { λ o. o.held.items };

    ghost invariant = { λ o. length o.held.items ≤ 3 };
}

impl Operands32 {
    /// No operands, which needs no memory.
    pub fn new(alloc: Global) -> Self
        ensures { result ≡ [] }
    {
        Operands32 {
            held: Vec::new(alloc),
        }
    }

    /// No operands, with room for so many, at most three.
    pub fn with_room(alloc: Global, count: usize) -> Result<Self, AllocError>
        requires { count ≤ 3 }
        ensures { IfOk result (λ o. o ≡ []) }
    {
        Ok(Operands32 {
            held: Vec::with_capacity(alloc, count)?,
        })
    }

    /// One more operand, behind the others, where there are fewer than three. It needs memory where no room is left.
    pub fn push(&mut self, o: Operand32) -> Result<(), AllocError>
        requires { length self.old < 3 }
        ensures { OnOk result (self.new ≡ self.old ++ o ∷ []) }
    {
        self.held.push(o)?;
        Ok(())
    }

    /// The operands from left to right.
    pub fn as_slice(&self) -> &[Operand32]
        ensures { result.now ≡ self.now }
    {
        self.held.as_slice()
    }
}
