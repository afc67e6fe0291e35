// Operands as templates spell them, with holes.

/// A mark of a template's line: a byte that stands as it is, or a hole.
#[derive(Clone, Copy, Debug, PartialEq, Eq)]
pub enum Mark {
    Byte(u8),
    /// `%i`: the symbol with this number, counted from 1, or the rule's own register, 0.
    Hole(u8),
    /// `%L`
    Label,
    /// `%F`
    Callee,
    /// `%N`
    Count,
}

/// A number in an operand: itself, or what a symbol stands for.
#[derive(Clone, Copy, Debug, PartialEq, Eq)]
pub enum Number {
    Itself(u32),
    Symbol(u8),
}

/// An operand without its index, by the addressing modes of the VAX Architecture Handbook. Registers are holes.
#[derive(Clone, Copy, Debug, PartialEq, Eq)]
pub enum Base {
    /// `r0`
    RegisterZero,
    /// `%i`: whatever the symbol stands for.
    Hole(u8),
    /// `$n`, `$%i`
    Immediate(Number),
    /// `$-%i`: the negative of a constant.
    Negative(u8),
    /// `(%i)`
    RegisterDeferred(u8),
    /// `n(%i)`, `%j(%i)`
    Displacement(Number, u8),
    /// `*n(%i)`, `*%j(%i)`
    DisplacementDeferred(Number, u8),
    /// `*$n`, `*$%i`
    Absolute(Number),
    /// `*%i`: memory at the address that a local, an argument or an object holds.
    Deferred(u8),
}

/// An operand of a template, with its index.
#[derive(Clone, Copy, Debug, PartialEq, Eq)]
pub struct Form {
    pub base: Base,
    pub index: Option<u8>,
}
