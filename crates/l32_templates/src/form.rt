// Operands as templates spell them, with holes.

use vax_templates::Number;

/// An operand of a template. Registers are holes, but for `a0`.
#[derive(Clone, Copy, Debug, PartialEq, Eq)]
pub enum Form {
    /// `a0`
    RegisterZero,
    /// `%i`: whatever the symbol stands for.
    Hole(u8),
    /// `$n`, `$%i`
    Immediate(Number),
    /// `$-%i`: the negative of a constant.
    Negative(u8),
    /// `n(%i)`, `%j(%i)`
    Displacement(Number, u8),
    /// `@n(%i)`, `@%j(%i)`
    DisplacementDeferred(Number, u8),
    /// `@%i`: memory at the address that a local or an argument holds.
    Deferred(u8),
}
