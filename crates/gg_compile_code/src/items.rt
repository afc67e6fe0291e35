// The code of a function's items.
ghost use Rattle.std.specs.Prelude.{◌≡◌, ◌≤◌, ◌++◌, [], ◌∷◌, IfOk, OnOk};
ghost use Rattle.gg_base.specs.declared.limits.TheConstants.{NEED_LIMIT};
ghost use Rattle.tree_core.specs.Names.{label_name};
ghost use Rattle.vax_core.specs.declared.code.CodeItem.TheVariants as item_kind;
ghost use Rattle.vax_target.specs.vax_target_meaning.specs.Vax.{vax};
ghost use Rattle.vax_frames.specs.Frames.{code_items};
ghost use Rattle.gg_compile_code.specs.Selecting.{PutsItem, IsBody};
ghost use Rattle.gg_compile_code.specs.Going.{ItemGoes, FunctionGoes};

use gg_base::NoMemory;
use sel_parse::{Generator, SelectFault, select};
use sel_regs::Slots;
use std::alloc::{AllocError, Global};
use tree_core::spelling::label_name;
use tree_core::{TreeFn, TreeItem, TreeProgram};
use vax_core::{CodeItem, Instr};
use vax_target::Vax;

/// The code of a function's items, and how many words its frame has.
#[derive(Drop)]
pub struct Body {
    pub items: Vec<CodeItem>,
    pub words: u32,
}

// Puts a label behind other items.
fn put_label(alloc: Global, label: u32, items: &mut Vec<CodeItem>) -> Result<(), NoMemory>
    ensures { OnOk result (items.new.items ≡ items.old.items ++ item_kind.Label (label_name label) ∷ []) }
{
    let name = label_name(alloc, label)?;
    items.push(CodeItem::Label(name))?;
    Ok(())
}

// Puts instructions behind other items.
fn put_instrs(instrs: Vec<Instr>, items: &mut Vec<CodeItem>) -> Result<(), AllocError>
    ensures { OnOk result (items.new.items ≡ items.old.items ++ code_items instrs.items) }
{
    items.extend(instrs.into_iter().map(CodeItem::Instr))
}

// Puts the code of an item behind that of others.
fn put_item(
    alloc: Global,
    generator: &Generator<Vax>,
    program: &TreeProgram,
    item: &TreeItem,
    slots: &mut Slots,
    items: &mut Vec<CodeItem>,
) -> Result<(), NoMemory>
    requires goes { ItemGoes vax generator.now.tables.content program.now slots.old.first item.now }
    ensures { OnOk result (PutsItem vax generator.now.tables.content program.now slots.old slots.new item.now
        items.old.items items.new.items) }
{
    match item {
        TreeItem::Label(label) => put_label(alloc, *label, items)?,
        TreeItem::Root(leaves) => {
            match select(alloc, generator, program, leaves.as_slice(), slots) {
                Ok(selected) => put_instrs(selected.instrs, items)?,
                Err(SelectFault::NoMemory) => return Err(NoMemory),
                // A frame word is free for each value that is saved.
                Err(SelectFault::FrameFull) => unreachable!(),
            }
        }
    }
    Ok(())
}

/// The code of a function's items, in order: labels stay, and each tree is the code that is selected of it. Slots begin behind the locals.
pub fn body_of(
    alloc: Global,
    generator: &Generator<Vax>,
    program: &TreeProgram,
    f: &TreeFn,
) -> Result<Body, NoMemory>
    requires few { f.now.locals ≤ NEED_LIMIT }
    requires goes { FunctionGoes vax generator.now.tables.content program.now f.now }
    ensures body { IfOk result (λ b. IsBody vax generator.now.tables.content program.now f.now b.items.items b.words) }
    ensures few { IfOk result (λ b. b.words ≤ NEED_LIMIT) }
{
    let mut slots = Slots::new(f.locals);
    let mut items = Vec::new(alloc);
    for item in f.items.as_slice() {
        put_item(alloc, generator, program, item, &mut slots, &mut items)?;
    }
    let words = slots.most();
    Ok(Body { items, words })
}
