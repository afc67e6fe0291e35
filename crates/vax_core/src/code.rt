// Instructions and code.
ghost use Rattle.vax_core.specs.Registers.{operands_name, IsSetOf};

use crate::{Addr, Op, Operands, RegSet};
use bitflags::Flags;
use gg_base::{ListOf, Name};

/// An instruction. A branch has its label as its target, `calls` the label or service that is called.
#[derive(Drop)]
pub struct Instr {
    pub op: Op,
    pub operands: Operands,
    pub target: Option<Name>,
}

impl Instr {
    /// The registers among r0 to r11 that its operands name.
    pub fn registers(&self) -> RegSet
        ensures { IsSetOf result.0 (operands_name self.now.operands) }
    {
        self.operands.as_slice().iter().fold(
            RegSet::empty(),
            |set, operand| set.union(operand.registers()),
        )
    }
}

/// An item of the data area.
#[derive(Drop)]
pub enum AreaItem {
    /// A label for the next byte.
    Label(Name),
    /// A name that is known outside; it has no effect.
    Globl(Name),
    /// Zeros up to a multiple of 2 to this power, which is 0, 1 or 2.
    Align(u8),
    Byte(u8),
    Word(u16),
    Long(Addr),
    /// So many zeros.
    Space(u32),
}

/// An item of the code.
#[derive(Drop)]
pub enum CodeItem {
    /// A label for the next item.
    Label(Name),
    /// A name that is known outside; it has no effect.
    Globl(Name),
    /// An entry mask: bit N is there where `calls` saves rN.
    Mask(u16),
    Instr(Instr),
}

/// Items of the data area in order.
pub type AreaItems = ListOf<AreaItem>;

/// Items of the code in order.
pub type CodeItems = ListOf<CodeItem>;

/// A text's data area and its code.
#[derive(Drop)]
pub struct Code {
    pub area: AreaItems,
    pub items: CodeItems,
}
