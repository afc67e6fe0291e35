// The items of a function.
use crate::tree::Tree;
use c_types::Integer;
use gg_base::Rel;

/// A label, or a root over pure trees.
#[derive(Drop)]
pub enum Item {
    Label(u32),
    /// A local becomes a value.
    AssignLocal(u32, Tree),
    /// A parameter, from 0, becomes a value.
    AssignParameter(u32, Tree),
    /// Memory at an address, as an integer type, becomes the low bytes of a value.
    AssignMemory(Integer, Tree, Tree),
    /// Where the relation holds of both values, the label is next.
    Branch(Rel, u32, Tree, Tree),
    Jump(u32),
    Push(Tree),
    /// A function, by its number, with so many arguments.
    Call(u32, u32),
    /// The result of the call before it goes to a local.
    Save(u32),
    Return(Tree),
}
