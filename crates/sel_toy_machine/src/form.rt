// The instructions that a template's line may spell.

use gg_base::Size;

/// A line of a template, with the numbers of its symbols.
#[derive(Clone, Copy, Debug, PartialEq, Eq)]
pub enum Form {
    /// `l %1,%0`, `w %1,%0` or `b %1,%0`: `%0` becomes a value of a size.
    Move(Size, u8),
    /// `e %1,%0`: `%0` becomes the address of a place.
    Address(u8),
    /// `a %1,%2,%0`: `%0` becomes a sum.
    Add(u8, u8),
    /// `d %1,%2,%0`: `%0` becomes a quotient.
    Divide(u8, u8),
    /// `s %1,%2`, `y %1,%2` or `x %1,%2`: a symbol's own place of a size gets a number.
    Store(Size, u8, u8),
    /// `S %1,%2`, `Y %1,%2` or `X %1,%2`: the memory at a register's address gets a number.
    StoreAt(Size, u8, u8),
    /// `p %1`
    Push(u8),
    /// `t %1,%2,%3`: the relation of the first symbol compares the others.
    Branch(u8, u8, u8),
    /// `j %1`
    Jump(u8),
    /// `c %1`
    Call(u8),
    /// `r %1`
    Return(u8),
    /// `v %1`
    Save(u8),
}

/// A shape, with the number of its symbol.
#[derive(Clone, Copy, Debug, PartialEq, Eq)]
pub enum ShapeForm {
    /// `%1`: a symbol's own operand.
    Alone(u8),
    /// `(%1)`: the memory at the address in a register.
    Based(u8),
}
