// How often the trees of a program take each rule.
use crate::taking::{Ending, Taken, select_tree};
use gg_base::NoMemory;
use lr_tables::Tables;
use std::alloc::Global;
use tree_core::{Leaf, TreeFn, TreeItem, TreeProgram};

/// How often each rule is taken, by its number from 0, and how many trees have no code.
#[derive(Drop)]
pub struct Counts {
    pub rules: Vec<u32>,
    pub stopped: u32,
}

/// A tree's leaves without the `End` behind them.
pub fn without_end(leaves: &[Leaf]) -> &[Leaf] {
    match leaves {
        [tree @ .., last] => if last.is_end() { tree } else { leaves },
        [] => leaves,
    }
}

fn count(taken: &[Taken], counts: &mut Counts) {
    for one in taken {
        if let Some(count) = counts.rules.get_mut(one.rule as usize) {
            *count = count.saturating_add(1);
        }
    }
}

fn count_function(
    alloc: Global,
    tables: &Tables,
    program: &TreeProgram,
    f: &TreeFn,
    counts: &mut Counts,
) -> Result<(), NoMemory> {
    for item in f.items.as_slice() {
        if let TreeItem::Root(leaves) = item {
            let tree = without_end(leaves.as_slice());
            let selection = select_tree(alloc, tables, program, f.locals, tree)?;
            count(&selection.taken, counts);
            if selection.ending != Ending::Done {
                counts.stopped = counts.stopped.saturating_add(1);
            }
        }
    }
    Ok(())
}

/// How often the trees of a program take each rule.
pub fn counts_of(
    alloc: Global,
    tables: &Tables,
    program: &TreeProgram,
) -> Result<Counts, NoMemory> {
    let rules = tables.description().rules().len();
    let mut counts = Counts {
        rules: vec![in alloc; 0_u32; rules]?,
        stopped: 0,
    };
    for f in program.functions.as_slice() {
        count_function(alloc, tables, program, f, &mut counts)?;
    }
    Ok(counts)
}
