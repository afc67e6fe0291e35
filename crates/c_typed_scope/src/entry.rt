// What names stand for.
use c_types::{CType, Types, Variable};

/// What a name stands for.
#[derive(Clone, Copy, Debug, PartialEq, Eq)]
pub enum Entry {
    Variable(CType, Variable),
    /// An array: the type of its first element's address, the variable and its bytes.
    Array(CType, Variable, u32),
    /// A function: its number among those that are declared, or defined in the text, with the services first.
    Function(usize),
}

/// The types of a function.
#[derive(Drop)]
pub struct Signature {
    pub result: CType,
    pub parameters: Types,
}
