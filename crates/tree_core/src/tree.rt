// Leaves and trees.

ghost use Rattle.std.specs.Prelude.{◌≡◌, ◌∷◌, ◌++◌, [], IfOk, OnOk};
ghost use Rattle.tree_core.specs.Attributes.{is_of_kind, leaf_fits, is_end, end_leaf};
ghost use Rattle.tree_core.specs.Names.{name_of, shown, spaced};
ghost use Rattle.tree_core.specs.Trees.{leaves_onto, forest_of};

use crate::token::{AttKind, Tok};
use gg_base::{NoMemory, Rel, Text};
use std::alloc::Global;

/// What a token stands with: see the tree language's table for which attribute is which token's.
#[derive(Clone, Copy, Debug, PartialEq, Eq)]
pub enum Att {
    Nothing,
    /// A constant, from 0 to 2^32 - 1.
    Number(u32),
    /// The address so many bytes behind an object's first, modulo 2^32.
    Object { object: u32, offset: u32 },
    /// A local, from 0, or an argument, from 1.
    Slot(u32),
    /// Where a conditional branch goes, and when.
    Branch { rel: Rel, label: u32 },
    Label(u32),
    /// What is called, by its number, and with how many arguments.
    Callee { function: u32, count: u32 },
}

impl Att {
    /// Whether the attribute is of the kind, and in its range.
    pub fn is_of_kind(self, kind: AttKind) -> bool
        ensures { result ≡ is_of_kind kind self }
    {
        match (kind, self) {
            (AttKind::Nothing, Att::Nothing) => true,
            (AttKind::Own(own), Att::Number(number)) => number == own,
            (AttKind::Other, Att::Number(number)) => !matches!(number, 0 | 1 | 2 | 4 | 8),
            (AttKind::Object, Att::Object { offset, .. }) => offset != 0x8000_0000,
            (AttKind::Local, Att::Slot(_)) => true,
            (AttKind::Argument, Att::Slot(number)) => 1 <= number && number <= 255,
            (AttKind::Branch, Att::Branch { .. }) => true,
            (AttKind::Label, Att::Label(_)) => true,
            (AttKind::Callee, Att::Callee { count, .. }) => count <= 255,
            _ => false,
        }
    }
}

/// A token with its attribute.
#[derive(Clone, Copy, Debug, PartialEq, Eq)]
pub struct Leaf {
    pub tok: Tok,
    pub att: Att,
}

impl Leaf {
    /// The leaf behind a tree.
    pub const END: Leaf = Leaf {
        tok: Tok::End,
        att: Att::Nothing,
    };

    /// Whether the attribute fits the token.
    pub fn fits(self) -> bool
        ensures { result ≡ leaf_fits self }
    {
        self.att.is_of_kind(self.tok.attribute())
    }

    /// Whether this is the leaf behind a tree.
    pub fn is_end(self) -> bool
        ensures { result ≡ is_end self }
    {
        self.tok.sort().is_none() && self.fits()
    }
}

/// A tree: its root's token and the trees below it, from left to right.
#[derive(Drop)]
pub struct Tree {
    pub leaf: Leaf,
    pub kids: Vec<Tree>,
}

/// The leaves of a tree in prefix order, and `End` behind them.
pub fn linear(alloc: Global, tree: &Tree) -> Result<Vec<Leaf>, NoMemory>
    ensures { IfOk result (λ leaves. leaves.items ≡ leaves_onto (forest_of tree.now) (end_leaf ∷ [])) }
{
    let mut leaves = Vec::new(alloc);
    leaves.push(tree.leaf)?;
    let mut waiting: Vec<&[Tree]> = Vec::new(alloc);
    waiting.push(&tree.kids)?;
    while let Some(trees) = waiting.pop() {
        if let Some((first, others)) = trees.split_first() {
            leaves.push(first.leaf)?;
            waiting.push(others)?;
            waiting.push(&first.kids)?;
        }
    }
    leaves.push(Leaf::END)?;
    Ok(leaves)
}

/// The names of the leaves' tokens, joined by single blanks.
pub fn show_tree(alloc: Global, leaves: &[Leaf]) -> Result<Text, NoMemory>
    ensures { IfOk result (λ text. text ≡ shown leaves.now) }
{
    let mut text = Vec::new(alloc);
    let mut is_first = true;
    for leaf in leaves {
        add_name(&mut text, is_first, leaf.tok)?;
        is_first = false;
    }
    Ok(Text::from_vec(text))
}

// The token's name behind the text, with a blank between unless it is the first.
fn add_name(text: &mut Vec<u8>, is_first: bool, tok: Tok) -> Result<(), NoMemory>
    ensures { OnOk result (text.new.items ≡ text.old.items ++ spaced is_first (name_of tok)) }
{
    if !is_first {
        text.push(b' ')?;
    }
    text.extend_from_slice(tok.name().as_bytes())?;
    Ok(())
}
