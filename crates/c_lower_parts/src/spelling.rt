// The leaves of trees, in prefix order.
ghost use Rattle.std.specs.Prelude.{◌≡◌, ◌++◌, ◌∷◌, [], IfOk, OnOk};
ghost use Rattle.tree_core.specs.Attributes.{end_leaf};
ghost use Rattle.c_lower_scheme.specs.Spelling as spelling;
ghost use Rattle.c_lower_parts.specs.Views.{tree, item};
ghost use Rattle.c_lower_parts.specs.Roots.{root_leaves};

use crate::item::Item;
use crate::part::after;
use crate::tree::Tree;
use c_types::{ArithmeticOperator, Integer};
use gg_base::NoMemory;
use std::alloc::Global;
use tree_core::{Att, Leaf, Leaves, Tok, TreeItem};

// The token of a number.
fn constant_token(n: u32) -> Tok
    ensures { result ≡ spelling.constant_token n }
{
    match n {
        0 => Tok::Zero,
        1 => Tok::One,
        2 => Tok::Two,
        4 => Tok::Four,
        8 => Tok::Eight,
        _ => Tok::Const,
    }
}

fn operator_token(op: ArithmeticOperator) -> Tok
    ensures { result ≡ spelling.operator_token op }
{
    match op {
        ArithmeticOperator::Add => Tok::Plus,
        ArithmeticOperator::Subtract => Tok::Minus,
        ArithmeticOperator::Multiply => Tok::Mul,
        ArithmeticOperator::Divide => Tok::Div,
        ArithmeticOperator::Remainder => Tok::Mod,
        ArithmeticOperator::And => Tok::And,
        ArithmeticOperator::Xor => Tok::Xor,
        ArithmeticOperator::Or => Tok::Or,
        ArithmeticOperator::ShiftLeft => Tok::Lsh,
        ArithmeticOperator::ShiftRight => Tok::Rsh,
    }
}

// One more leaf.
fn put_leaf(leaves: &mut Vec<Leaf>, tok: Tok, att: Att) -> Result<(), NoMemory>
    ensures { OnOk result (leaves.new.items ≡ leaves.old.items ++ (spelling.leaf tok att ∷ [])) }
{
    leaves.push(Leaf { tok, att })?;
    Ok(())
}

// A token without an attribute.
fn put_plain(leaves: &mut Vec<Leaf>, tok: Tok) -> Result<(), NoMemory>
    ensures { OnOk result (leaves.new.items ≡ leaves.old.items ++ (spelling.plain tok ∷ [])) }
{
    put_leaf(leaves, tok, Att::Nothing)
}

// A reading by size, under its extension.
fn put_indirect(leaves: &mut Vec<Leaf>, i: Integer) -> Result<(), NoMemory>
    ensures { OnOk result (leaves.new.items ≡ leaves.old.items ++ spelling.indir_onto i []) }
{
    match i {
        Integer::Char => put_two(leaves, Tok::Sxb, Tok::IndirB),
        Integer::UnsignedChar => put_two(leaves, Tok::Zxb, Tok::IndirB),
        Integer::Short => put_two(leaves, Tok::Sxw, Tok::IndirW),
        Integer::UnsignedShort => put_two(leaves, Tok::Zxw, Tok::IndirW),
        Integer::Int => put_plain(leaves, Tok::IndirL),
    }
}

// A conversion: the low bits, and their extension.
fn put_converted(leaves: &mut Vec<Leaf>, i: Integer) -> Result<(), NoMemory>
    ensures { OnOk result (leaves.new.items ≡ leaves.old.items ++ spelling.conv_onto i []) }
{
    match i {
        Integer::Char => put_two(leaves, Tok::Sxb, Tok::Ncb),
        Integer::UnsignedChar => put_two(leaves, Tok::Zxb, Tok::Ncb),
        Integer::Short => put_two(leaves, Tok::Sxw, Tok::Ncw),
        Integer::UnsignedShort => put_two(leaves, Tok::Zxw, Tok::Ncw),
        Integer::Int => Ok(()),
    }
}

// Two tokens without attributes.
fn put_two(leaves: &mut Vec<Leaf>, first: Tok, second: Tok) -> Result<(), NoMemory>
    ensures { OnOk result (leaves.new.items ≡ leaves.old.items ++ (spelling.plain first ∷ spelling.plain second ∷ [])) }
{
    put_plain(leaves, first)?;
    put_plain(leaves, second)
}

// A tree's leaves behind others.
fn put_tree(leaves: &mut Vec<Leaf>, w: &Tree) -> Result<(), NoMemory>
    ensures { OnOk result (leaves.new.items ≡ leaves.old.items ++ spelling.leaves_onto (tree w.now) []) }
{
    match w {
        Tree::Number(n) => put_leaf(leaves, constant_token(*n), Att::Number(*n)),
        Tree::Object(object) => put_leaf(
            leaves,
            Tok::Gaddr,
            Att::Object {
                object: *object,
                offset: 0,
            },
        ),
        Tree::Local(n) => put_leaf(leaves, Tok::Loc, Att::Slot(*n)),
        Tree::Parameter(n) => put_leaf(leaves, Tok::Arg, Att::Slot(after(*n)?)),
        Tree::Indirect(i, a) => {
            put_indirect(leaves, *i)?;
            put_tree(leaves, a)
        }
        Tree::Convert(i, a) => {
            put_converted(leaves, *i)?;
            put_tree(leaves, a)
        }
        Tree::Negate(a) => {
            put_plain(leaves, Tok::Neg)?;
            put_tree(leaves, a)
        }
        Tree::Complement(a) => {
            put_plain(leaves, Tok::Com)?;
            put_tree(leaves, a)
        }
        Tree::Binary(op, a, b) => {
            put_plain(leaves, operator_token(*op))?;
            put_tree(leaves, a)?;
            put_tree(leaves, b)
        }
    }
}

// The tokens of an assignment to memory: the root, the place, and what narrows the value.
fn put_assigned(leaves: &mut Vec<Leaf>, i: Integer, a: &Tree, w: &Tree) -> Result<(), NoMemory>
    ensures { OnOk result (leaves.new.items ≡ leaves.old.items ++ spelling.assign_onto i (tree a.now) (tree w.now) []) }
{
    match i {
        Integer::Char => put_narrowed(leaves, Tok::AssignB, Tok::IndirB, a, Tok::Ncb, w),
        Integer::UnsignedChar => put_narrowed(leaves, Tok::AssignB, Tok::IndirB, a, Tok::Ncb, w),
        Integer::Short => put_narrowed(leaves, Tok::AssignW, Tok::IndirW, a, Tok::Ncw, w),
        Integer::UnsignedShort => put_narrowed(leaves, Tok::AssignW, Tok::IndirW, a, Tok::Ncw, w),
        Integer::Int => {
            put_two(leaves, Tok::AssignL, Tok::IndirL)?;
            put_tree(leaves, a)?;
            put_tree(leaves, w)
        }
    }
}

fn put_narrowed(
    leaves: &mut Vec<Leaf>,
    root: Tok,
    place: Tok,
    a: &Tree,
    narrow: Tok,
    w: &Tree,
) -> Result<(), NoMemory>
    ensures { OnOk result (leaves.new.items ≡ leaves.old.items ++ (spelling.plain root ∷ spelling.plain place ∷
        spelling.leaves_onto (tree a.now) (spelling.plain narrow ∷ spelling.leaves_onto (tree w.now) []))) }
{
    put_two(leaves, root, place)?;
    put_tree(leaves, a)?;
    put_plain(leaves, narrow)?;
    put_tree(leaves, w)
}

// A root's leaves, without `End`.
fn put_root(leaves: &mut Vec<Leaf>, one: &Item) -> Result<(), NoMemory>
    ensures { OnOk result (leaves.new.items ≡ leaves.old.items ++ root_leaves (item one.now)) }
{
    match one {
        Item::Label(_) => Ok(()),
        Item::AssignLocal(n, w) => {
            put_plain(leaves, Tok::AssignL)?;
            put_leaf(leaves, Tok::Loc, Att::Slot(*n))?;
            put_tree(leaves, w)
        }
        Item::AssignParameter(n, w) => {
            put_plain(leaves, Tok::AssignL)?;
            put_leaf(leaves, Tok::Arg, Att::Slot(after(*n)?))?;
            put_tree(leaves, w)
        }
        Item::AssignMemory(i, a, w) => put_assigned(leaves, *i, a, w),
        Item::Branch(rel, label, a, b) => {
            put_leaf(
                leaves,
                Tok::Cbr,
                Att::Branch {
                    rel: *rel,
                    label: *label,
                },
            )?;
            put_tree(leaves, a)?;
            put_tree(leaves, b)
        }
        Item::Jump(label) => put_leaf(leaves, Tok::Jump, Att::Label(*label)),
        Item::Push(w) => {
            put_plain(leaves, Tok::Push)?;
            put_tree(leaves, w)
        }
        Item::Call(function, count) => {
            put_leaf(
                leaves,
                Tok::Call,
                Att::Callee {
                    function: *function,
                    count: *count,
                },
            )
        }
        Item::Save(n) => put_leaf(leaves, Tok::Save, Att::Slot(*n)),
        Item::Return(w) => {
            put_plain(leaves, Tok::Ret)?;
            put_tree(leaves, w)
        }
    }
}

/// An item with its tree as leaves and `End` behind them.
pub fn spelled(alloc: Global, one: &Item) -> Result<TreeItem, NoMemory>
    ensures { IfOk result (λ r. r ≡ spelling.spelled (item one.now)) }
{
    if let Item::Label(label) = one {
        return Ok(TreeItem::Label(*label));
    }
    let mut leaves = Vec::new(alloc);
    put_root(&mut leaves, one)?;
    leaves.push(Leaf::END)?;
    Ok(TreeItem::Root(Leaves::from_vec(leaves)))
}
