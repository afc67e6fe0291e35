// Places, and what they hold.
ghost use Rattle.std.specs.Prelude.{◌≡◌, ◌++◌, [], IfOk, OnOk};
ghost use Rattle.c_lower_scheme.specs.Trees as mirror;
ghost use Rattle.c_lower_scheme.specs.Parts as parts;
ghost use Rattle.c_lower_scheme.specs.Places as places;
ghost use Rattle.c_lower_parts.specs.Views.{tree, item, all_items, low, storage, found};

use crate::item::Item;
use crate::part::{Frame, Free, Located, Lowered, Storage, due, put_saved};
use crate::tree::{Tree, boxed, fitted, indirect, integer_of, of_leaves};
use c_types::{ArithmeticOperator, CType, Variable};
use gg_base::NoMemory;
use std::alloc::Global;

/// The address of an offset in the block.
pub fn in_block(frame: Frame, offset: u32) -> Result<Box<Tree>, NoMemory>
    ensures { IfOk result (λ r. tree r.value ≡ places.in_block frame.locals offset) }
{
    if offset == 0 {
        boxed(frame.alloc, Tree::Local(frame.locals))
    } else {
        of_leaves(
            frame.alloc,
            ArithmeticOperator::Add,
            Tree::Local(frame.locals),
            Tree::Number(offset),
        )
    }
}

// An object in memory.
fn object_at(alloc: Global, n: u32) -> Result<Storage, NoMemory>
    ensures { IfOk result (λ r. storage r ≡ parts.InMem (mirror.Gaddr n)) }
{
    Ok(Storage::Memory(boxed(alloc, Tree::Object(n))?))
}

/// Where a variable is kept.
pub fn storage_of(frame: Frame, v: Variable) -> Result<Storage, NoMemory>
    ensures { IfOk result (λ r. storage r ≡ places.where_of frame.locals v) }
{
    match v {
        Variable::Automatic(n) => Ok(Storage::Local(n)),
        Variable::Parameter(n) => Ok(Storage::Parameter(n)),
        Variable::Global(n) => object_at(frame.alloc, n),
        Variable::Static(n) => object_at(frame.alloc, n),
        Variable::InBlock(offset) => Ok(Storage::Memory(in_block(frame, offset)?)),
    }
}

/// The place of a variable.
pub fn located(frame: Frame, of: CType, v: Variable, free: Free) -> Result<Located, NoMemory>
    ensures { IfOk result (λ r. found r ≡ record {
      items = [];
      type = of;
      place = places.where_of frame.locals v;
      temps = free.temps;
      labels = free.labels;
    }) }
{
    let storage = storage_of(frame, v)?;
    Ok(Located {
        items: Vec::new(frame.alloc),
        ctype: of,
        storage,
        free,
    })
}

/// The address of what is kept in memory; a local has none, and is not asked for it.
pub fn address_of(alloc: Global, s: Storage) -> Result<Box<Tree>, NoMemory>
    ensures { IfOk result (λ r. tree r.value ≡ places.address_tree (storage s)) }
{
    match s {
        Storage::Local(_) => boxed(alloc, Tree::Number(0)),
        Storage::Parameter(_) => boxed(alloc, Tree::Number(0)),
        Storage::Memory(a) => Ok(a),
    }
}

/// The address of an array.
pub fn array_low(frame: Frame, v: Variable, free: Free) -> Result<Lowered, NoMemory>
    ensures { IfOk result (λ r. low r ≡ parts.due (places.address_tree (places.where_of frame.locals v)) free.temps free.labels) }
{
    let storage = storage_of(frame, v)?;
    let address = address_of(frame.alloc, storage)?;
    Ok(due(frame.alloc, address, free))
}

/// The value that is kept.
pub fn read_from(alloc: Global, t: CType, s: Storage) -> Result<Box<Tree>, NoMemory>
    ensures { IfOk result (λ r. tree r.value ≡ places.read_from t (storage s)) }
{
    match s {
        Storage::Local(n) => boxed(alloc, Tree::Local(n)),
        Storage::Parameter(n) => boxed(alloc, Tree::Parameter(n)),
        Storage::Memory(a) => indirect(alloc, integer_of(t), a),
    }
}

/// The assignment of a value to a place.
pub fn assign_to(alloc: Global, t: CType, s: Storage, w: Box<Tree>) -> Result<Item, NoMemory>
    ensures { IfOk result (λ r. item r ≡ places.assign_to t (storage s) (tree w.value)) }
{
    match s {
        Storage::Local(n) => {
            let value = fitted(alloc, t, w)?;
            Ok(Item::AssignLocal(n, Box::into_inner(value)))
        }
        Storage::Parameter(n) => {
            let value = fitted(alloc, t, w)?;
            Ok(Item::AssignParameter(n, Box::into_inner(value)))
        }
        Storage::Memory(a) => Ok(Item::AssignMemory(
            integer_of(t),
            Box::into_inner(a),
            Box::into_inner(w),
        )),
    }
}

impl Storage {
    /// The same place once more.
    pub fn copied(&self, alloc: Global) -> Result<Storage, NoMemory>
        ensures { IfOk result (λ r. storage r ≡ storage self.now) }
    {
        match self {
            Storage::Local(n) => Ok(Storage::Local(*n)),
            Storage::Parameter(n) => Ok(Storage::Parameter(*n)),
            Storage::Memory(a) => Ok(Storage::Memory(a.copied(alloc)?)),
        }
    }
}

/// The place's address goes into a temporary, or stays as it is.
pub fn put_held(
    alloc: Global,
    items: &mut Vec<Item>,
    is_saved: bool,
    n: u32,
    s: Storage,
) -> Result<Storage, NoMemory>
    ensures storage { IfOk result (λ r. storage r ≡ places.held is_saved n (storage s)) }
    ensures items { OnOk result (all_items items.new.items ≡ all_items items.old.items ++ places.holding is_saved n (storage s)) }
{
    match s {
        Storage::Local(n) => Ok(Storage::Local(n)),
        Storage::Parameter(n) => Ok(Storage::Parameter(n)),
        Storage::Memory(a) => Ok(Storage::Memory(put_saved(alloc, items, is_saved, n, a)?)),
    }
}

/// A place whose address is the value of an expression.
pub fn pointed(t: CType, p: Lowered) -> Located
    ensures { found result ≡ places.pointed t (low p) }
{
    Located {
        items: p.items,
        ctype: t,
        storage: Storage::Memory(p.tree),
        free: p.free,
    }
}

/// The value that a place holds.
pub fn read_low(alloc: Global, p: Located) -> Result<Lowered, NoMemory>
    ensures { IfOk result (λ r. low r ≡ places.read_low (found p)) }
{
    let tree = read_from(alloc, p.ctype, p.storage)?;
    Ok(Lowered {
        items: p.items,
        tree,
        free: p.free,
    })
}

/// The address of a place.
pub fn address_low(alloc: Global, p: Located) -> Result<Lowered, NoMemory>
    ensures { IfOk result (λ r. low r ≡ places.address_low (found p)) }
{
    let tree = address_of(alloc, p.storage)?;
    Ok(Lowered {
        items: p.items,
        tree,
        free: p.free,
    })
}
