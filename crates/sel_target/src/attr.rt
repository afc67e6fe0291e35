// What stands beside a symbol of the parse stack.

use tree_core::Leaf;

/// What a symbol of the parse stack stands for in the code so far, with operands of a target.
#[derive(Drop)]
pub enum Attr<O> {
    /// The value of a register, by its number, from 0 to 11.
    Reg(u8),
    /// The value of a register that was saved in the frame word with this number, below `NEED_LIMIT`. Its symbol is still a register's.
    InSlot(u32),
    /// The value that an operand reads.
    Value(O),
    /// The place that an operand names.
    Place(O),
    /// A constant.
    Con(u32),
    /// The address that an operand names.
    Ea(O),
    /// A token with its attribute.
    Token(Leaf),
    /// A statement's class, or `%0` where there is none.
    Nothing,
}
