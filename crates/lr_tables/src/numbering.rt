// Item sets, numbered as first found.
ghost use Rattle.std.specs.Prelude.{◌≡◌, ◌≤◌, ◌+◌, length, IfOk, OnOk, Err};
ghost use Rattle.lr_tables.specs.Grammar.{IsShort};
ghost use Rattle.lr_tables.specs.Sets.{chains};
ghost use Rattle.lr_tables.specs.Numbering.{kernels, entered, row_entered, found, IsOver};

use crate::item::{Item, TOKENS};
use crate::marks::Edge;
use crate::sets::{item_set, moved};
use gg_base::NoMemory;
use indexmap::IndexSet;
use md_reader::Rule;
use std::alloc::{AllocFailed, Global};

/// The most item sets.
pub const MAX_STATES: usize = 4_096;

/// Why no tables are built: there is no memory, or there are more than 4,096 item sets.
#[derive(Clone, Copy, Debug, PartialEq, Eq)]
pub enum BuildFault {
    NoMemory,
    TablesFull,
}

impl From<NoMemory> for BuildFault {
    ghost use Rattle.lr_tables.specs.declared.numbering.BuildFault.TheVariants as faults;

    ghost from_gives = { λ _ e. e ≡ faults.NoMemory };

    fn from(_: NoMemory) -> Self {
        BuildFault::NoMemory
    }
}

impl<T: Drop> From<AllocFailed<T>> for BuildFault {
    ghost use Rattle.lr_tables.specs.declared.numbering.BuildFault.TheVariants as faults;

    ghost from_gives = { λ _ e. e ≡ faults.NoMemory };

    fn from(_: AllocFailed<T>) -> Self {
        BuildFault::NoMemory
    }
}

// Adds a kernel, if it has items and is new.
fn enter(sets: &mut IndexSet<Vec<Item>>, kernel: Vec<Item>) -> Result<(), NoMemory>
    ensures { OnOk result (kernels sets.new.keys ≡ entered (kernels sets.old.keys) kernel.items) }
{
    if !kernel.is_empty() {
        sets.insert(kernel)?;
    }
    Ok(())
}

// Adds the kernels behind each symbol.
fn enter_row(
    alloc: Global,
    rules: &[Rule],
    stmt: u16,
    classes: usize,
    items: &[Item],
    sets: &mut IndexSet<Vec<Item>>,
) -> Result<(), BuildFault>
    requires short { IsShort rules.now }
    requires few { classes ≤ 64 }
    requires room { length sets.old.keys ≤ MAX_STATES }
    ensures entered { OnOk result (kernels sets.new.keys ≡ row_entered rules.now stmt items.now (kernels sets.old.keys) (40 + classes)) }
    ensures few { OnOk result (length sets.new.keys ≤ MAX_STATES) }
    ensures full { let entered = row_entered rules.now stmt items.now (kernels sets.old.keys) (40 + classes) in
        result ≡ Err BuildFault.TablesFull → MAX_STATES < length entered }
{
    for symbol in 0..TOKENS + classes {
        let kernel = moved(alloc, rules, stmt, items, symbol)?;
        enter(sets, kernel)?;
        if sets.len() > MAX_STATES {
            return Err(BuildFault::TablesFull);
        }
    }
    Ok(())
}

ghost use Rattle.std.specs.Prelude.{◌<◌};

/// The kernels of all item sets, numbered as first found.
pub fn number_item_sets(
    alloc: Global,
    rules: &[Rule],
    stmt: u16,
    classes: usize,
    edges: &[Edge],
) -> Result<IndexSet<Vec<Item>>, BuildFault>
    requires few { length rules.now ≤ 1000 }
    requires short { IsShort rules.now }
    requires few_classes { classes ≤ 64 }
    requires chained { edges.now ≡ chains rules.now }
    ensures found { IfOk result (λ sets. kernels sets.keys ≡ found rules.now stmt classes (length sets.keys)) }
    ensures few { IfOk result (λ sets. length sets.keys ≤ MAX_STATES) }
    ensures full { result ≡ Err BuildFault.TablesFull → IsOver rules.now stmt classes }
{
    let mut first = Vec::new(alloc);
    first.push(Item { rule: None, dot: 0 })?;
    let mut sets = IndexSet::new(alloc);
    enter(&mut sets, first)?;
    let mut at = 0;
    while let Some(kernel) = sets.get_index(at) {
        let items = item_set(alloc, rules, stmt, classes, edges, kernel.as_slice())?;
        enter_row(alloc, rules, stmt, classes, items.as_slice(), &mut sets)?;
        at += 1;
    }
    Ok(sets)
}
