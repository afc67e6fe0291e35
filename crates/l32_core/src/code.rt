// Instructions and code.
use crate::{Op32, Operands32};
use gg_base::{ListOf, Name};
use vax_core::AreaItems;

/// An instruction. A branch has its label as its target, `call` the label or service that is called.
#[derive(Drop)]
pub struct Instr32 {
    pub op: Op32,
    pub operands: Operands32,
    pub target: Option<Name>,
}

/// An item of the code.
#[derive(Drop)]
pub enum Item32 {
    /// A label for the next item.
    Label(Name),
    Instr(Instr32),
}

/// Items of the code in order.
pub type Items32 = ListOf<Item32>;

/// A text's data area and its code.
#[derive(Drop)]
pub struct Code32 {
    pub area: AreaItems,
    pub items: Items32,
}
