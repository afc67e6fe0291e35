// Functions and programs.

use crate::statement::Action;
use c_types::{CType, Types};
use gg_base::Name;
use tree_core::{LocalNumbers, Objects};

/// A function that is typed.
#[derive(Drop)]
pub struct Routine {
    pub name: Name,
    pub result: CType,
    /// The types of its parameters.
    pub parameters: Types,
    /// The types of its automatic locals that are no memory locals, by number.
    pub locals: Types,
    /// The numbers of those that are declared `register`, in order.
    pub registers: LocalNumbers,
    /// The bytes of its memory locals, a multiple of 4 of at most `BLOCK_LIMIT`; 0 where it has none.
    pub block: u32,
    pub body: Vec<Action>,
    /// The longwords of its frame: its automatic locals that are no memory locals, 8 where it has memory locals, and three for
    /// each node of its largest full expression.
    pub need: u32,
}

/// A program with its types and its layout.
#[derive(Drop)]
pub struct Program {
    /// Globals, static locals and string literals, in the order of their names or literals. Where a function has memory
    /// locals, the last two are the second stack's pointer and its area.
    pub objects: Objects,
    /// The functions, in order of definition.
    pub routines: Vec<Routine>,
    /// The number of `main`.
    pub main: usize,
}
