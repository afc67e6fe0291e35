// Tree programs: functions, their labels and trees, and objects in the data area.

use crate::tree::Leaf;
use gg_base::{Bytes, ListOf, Name};

/// A longword of an object, at this offset, that holds the address of an object.
#[derive(Clone, Copy, Debug, PartialEq, Eq)]
pub struct Link {
    pub at: u32,
    pub object: u32,
}

/// The places in an object that hold addresses of objects.
pub type Links = ListOf<Link>;

/// An object of the data area: where it lies, how many bytes it has, and what they hold at first.
#[derive(Drop)]
pub struct Object {
    pub label: Name,
    pub address: u32,
    pub size: u32,
    pub align: u32,
    pub bytes: Bytes,
    pub links: Links,
}

/// The objects of a program, which addresses name by their places.
pub type Objects = ListOf<Object>;

/// The leaves of a tree in prefix order, and `End` behind them.
pub type Leaves = ListOf<Leaf>;

/// A label, or a statement's leaves in prefix order with `End` behind them.
#[derive(Drop)]
pub enum TreeItem {
    Label(u32),
    Root(Leaves),
}

/// The labels and trees of a function, in order.
pub type TreeItems = ListOf<TreeItem>;

/// Numbers of locals of a function.
pub type LocalNumbers = ListOf<u32>;

/// A function: how many arguments and locals it has, which of the locals the source wants in
/// registers, and what it does.
#[derive(Drop)]
pub struct TreeFn {
    pub name: Name,
    pub args: u32,
    pub locals: u32,
    pub wanted: LocalNumbers,
    pub items: TreeItems,
}

/// The functions of a program, which calls name by their places.
pub type TreeFns = ListOf<TreeFn>;

/// A program, which begins with its function `main`.
#[derive(Drop)]
pub struct TreeProgram {
    pub functions: TreeFns,
    pub objects: Objects,
}
