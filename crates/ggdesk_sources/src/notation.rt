// How a program of trees is written: a line for each function and for each of its items, a tree as its tokens in prefix order, each with
// what it stands with in brackets.
use crate::leaves::relation_name;
use crate::runs::put_bytes;
use c_typed::Program;
use std::alloc::AllocError;
use tree_core::{Att, Leaf, Tok, TreeFn, TreeItem, TreeProgram};

// What a token stands with; the constants that are tokens of their own stand without their number.
fn put_attribute(told: &mut String, leaf: Leaf) -> Result<(), AllocError> {
    match leaf.att {
        Att::Nothing => Ok(()),
        Att::Number(number) => match leaf.tok {
            Tok::Const => write!(told, "[{number}]"),
            _ => Ok(()),
        },
        Att::Object { object, offset: 0 } => write!(told, "[o{object}]"),
        Att::Object { object, offset } => write!(told, "[o{object}+{offset}]"),
        Att::Slot(number) => write!(told, "[{number}]"),
        Att::Branch { rel, label } => write!(told, "[{} L{label}]", relation_name(rel)),
        Att::Label(label) => write!(told, "[L{label}]"),
        Att::Callee { function, count } => write!(told, "[f{function} {count}]"),
    }
}

fn put_tree(told: &mut String, leaves: &[Leaf]) -> Result<(), AllocError> {
    told.push_str("   ")?;
    for leaf in leaves {
        if !leaf.is_end() {
            told.push(' ')?;
            told.push_str(leaf.tok.name())?;
            put_attribute(told, *leaf)?;
        }
    }
    told.push('\n')
}

fn put_function(told: &mut String, function: &TreeFn, need: u32) -> Result<(), AllocError> {
    told.push_str("  function ")?;
    put_bytes(told, function.name.as_slice())?;
    let (args, locals) = (function.args, function.locals);
    writeln!(told, " args {args} locals {locals} need {need}")?;
    for item in function.items.as_slice() {
        match item {
            TreeItem::Label(label) => writeln!(told, "  L{label}:")?,
            TreeItem::Root(leaves) => put_tree(told, leaves.as_slice())?,
        }
    }
    Ok(())
}

/// Adds the trees of a program, with the frame need of each function of its source.
pub fn put_program(
    told: &mut String,
    source: &Program,
    trees: &TreeProgram,
) -> Result<(), AllocError> {
    let routines = source.plain().routines.as_slice();
    for (routine, function) in routines.iter().zip(trees.functions.as_slice()) {
        put_function(told, function, routine.need)?;
    }
    Ok(())
}

/// How many items the functions have.
pub fn count_items(trees: &TreeProgram) -> u64 {
    let mut count = 0_u64;
    for function in trees.functions.as_slice() {
        count = count.saturating_add(function.items.as_slice().len() as u64);
    }
    count
}
