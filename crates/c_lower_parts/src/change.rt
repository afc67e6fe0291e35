// Assignments, which may read what they change.
ghost use Rattle.std.specs.Prelude.{◌≡◌, [], IfOk};
ghost use Rattle.c_types.specs.Constants.{scale};
ghost use Rattle.c_lower_scheme.specs.Trees as mirror;
ghost use Rattle.c_lower_scheme.specs.Values as values;
ghost use Rattle.c_lower_scheme.specs.Assignments as assignments;
ghost use Rattle.c_lower_parts.specs.Views.{tree, low, found, ready, done};
ghost use Rattle.c_lower_parts.specs.Changes.{applied};

use crate::item::Item;
use crate::order::{is_nil, must_keep};
use crate::part::{
    Assignable, Emitted, Frame, Free, Located, Lowered, Storage, after, after_if, leaf, put,
    put_all, put_saved,
};
use crate::place::{assign_to, put_held, read_from};
use crate::tree::{Tree, advance, binary, boxed, fitted, integer_of, retreat, step};
use c_types::constant::scale;
use c_types::{ArithmeticOperator, CType, Direction, Integer};
use gg_base::NoMemory;
use std::alloc::Global;

/// What a place becomes by its old value and another one.
#[derive(Clone, Copy)]
pub enum Change {
    Arithmetic(ArithmeticOperator),
    Advance,
    Retreat,
    Step(Direction),
}

impl Change {
    // The new value of a place of the type.
    fn apply(
        self,
        alloc: Global,
        t: CType,
        old: Box<Tree>,
        by: Box<Tree>,
    ) -> Result<Box<Tree>, NoMemory>
        ensures { IfOk result (λ r. tree r.value ≡ applied self t (tree old.value) (tree by.value)) }
    {
        match self {
            Change::Arithmetic(op) => binary(alloc, op, old, by),
            Change::Advance => advance(alloc, t, old, by),
            Change::Retreat => retreat(alloc, t, old, by),
            Change::Step(direction) => step(alloc, direction, old, by),
        }
    }
}

/// A place and what it becomes by a value: it is read first, and its old value is saved where the value has items.
pub fn update_ready(
    frame: Frame,
    change: Change,
    p: Located,
    q: Lowered,
) -> Result<Assignable, NoMemory>
    ensures { IfOk result (λ r. ready r ≡ assignments.update_ready frame.locals frame.functions
        (applied change p.ctype) (found p) (low q)) }
{
    let is_held = must_keep(frame, &q.items, &p.storage);
    let is_saved = !is_nil(&q.items);
    let next = after_if(is_held, q.free.temps)?;
    let temps = after_if(is_saved, next)?;
    let mut items = p.items;
    let storage = put_held(frame.alloc, &mut items, is_held, q.free.temps, p.storage)?;
    let old = read_from(frame.alloc, p.ctype, storage.copied(frame.alloc)?)?;
    let old = put_saved(frame.alloc, &mut items, is_saved, next, old)?;
    put_all(&mut items, q.items)?;
    let value = change.apply(frame.alloc, p.ctype, old, q.tree)?;
    Ok(Assignable {
        items,
        ctype: p.ctype,
        storage,
        value,
        free: Free {
            temps,
            labels: q.free.labels,
        },
    })
}

/// A step by one, or by the size of what is pointed to, ready to be stored.
pub fn step_ready(frame: Frame, by: Direction, p: Located) -> Result<Assignable, NoMemory>
    ensures { IfOk result (λ r. ready r ≡ assignments.step_ready frame.locals frame.functions by (found p)) }
{
    let size = leaf(frame.alloc, Tree::Number(scale(p.ctype)), p.free)?;
    update_ready(frame, Change::Step(by), p, size)
}

// What a local of the type becomes by a step.
fn stepped(alloc: Global, by: Direction, local: u32, t: CType) -> Result<Box<Tree>, NoMemory>
    ensures { IfOk result (λ r. tree r.value ≡ values.step by (mirror.Loc local) (mirror.Num (scale t))) }
{
    let old = boxed(alloc, Tree::Local(local))?;
    let size = boxed(alloc, Tree::Number(scale(t)))?;
    step(alloc, by, old, size)
}

/// A step whose value is that before it.
pub fn step_before(frame: Frame, by: Direction, p: Located) -> Result<Lowered, NoMemory>
    ensures { IfOk result (λ r. low r ≡ assignments.postfix frame.locals frame.functions
        (assignments.step_tree frame.locals frame.functions by p.ctype) (found p)) }
{
    let none = Vec::new(frame.alloc);
    let is_held = must_keep(frame, &none, &p.storage);
    let kept = after_if(is_held, p.free.temps)?;
    let temps = after(kept)?;
    let mut items = p.items;
    let storage = put_held(frame.alloc, &mut items, is_held, p.free.temps, p.storage)?;
    let old = read_from(frame.alloc, p.ctype, storage.copied(frame.alloc)?)?;
    put(&mut items, Item::AssignLocal(kept, Box::into_inner(old)))?;
    let new = stepped(frame.alloc, by, kept, p.ctype)?;
    put(&mut items, assign_to(frame.alloc, p.ctype, storage, new)?)?;
    let tree = boxed(frame.alloc, Tree::Local(kept))?;
    Ok(Lowered {
        items,
        tree,
        free: Free {
            temps,
            labels: p.free.labels,
        },
    })
}

/// An assignment for its effect: one root.
pub fn store_drop(alloc: Global, r: Assignable) -> Result<Emitted, NoMemory>
    ensures { IfOk result (λ d. done d ≡ assignments.store_drop (ready r)) }
{
    let mut items = r.items;
    put(&mut items, assign_to(alloc, r.ctype, r.storage, r.value)?)?;
    Ok(Emitted {
        items,
        free: r.free,
    })
}

/// An assignment for its value: the variable itself, or a temporary.
pub fn store_low(alloc: Global, r: Assignable) -> Result<Lowered, NoMemory>
    ensures { IfOk result (λ p. low p ≡ assignments.store_low (ready r)) }
{
    let (ctype, free) = (r.ctype, r.free);
    let storage = r.storage;
    let mut items = r.items;
    let value = fitted(alloc, ctype, r.value)?;
    match storage {
        Storage::Local(n) => {
            put(&mut items, Item::AssignLocal(n, Box::into_inner(value)))?;
            let tree = boxed(alloc, Tree::Local(n))?;
            Ok(Lowered { items, tree, free })
        }
        Storage::Parameter(n) => {
            put(&mut items, Item::AssignParameter(n, Box::into_inner(value)))?;
            let tree = boxed(alloc, Tree::Parameter(n))?;
            Ok(Lowered { items, tree, free })
        }
        Storage::Memory(address) => {
            let temps = after(free.temps)?;
            put(
                &mut items,
                Item::AssignLocal(free.temps, Box::into_inner(value)),
            )?;
            put(
                &mut items,
                Item::AssignMemory(
                    integer_of(ctype),
                    Box::into_inner(address),
                    Tree::Local(free.temps),
                ),
            )?;
            let tree = boxed(alloc, Tree::Local(free.temps))?;
            Ok(Lowered {
                items,
                tree,
                free: Free { temps, ..free },
            })
        }
    }
}

/// The automatic local that a place is, where its type does not narrow what is assigned.
pub fn local_of(frame: Frame, p: &Located) -> Option<u32>
    ensures { result ≡ assignments.local_of frame.locals frame.functions (found p.now) }
{
    match integer_of(p.ctype) {
        Integer::Int => match p.storage {
            Storage::Local(n) => Some(n),
            Storage::Parameter(_) => None,
            Storage::Memory(_) => None,
        },
        Integer::Char => None,
        Integer::UnsignedChar => None,
        Integer::Short => None,
        Integer::UnsignedShort => None,
    }
}

/// A value that was delivered to a local, for the assignment's own value.
pub fn fill_low(alloc: Global, n: u32, p: Located, q: Emitted) -> Result<Lowered, NoMemory>
    ensures { IfOk result (λ r. low r ≡ assignments.fill_low n (found p) (done q)) }
{
    let mut items = p.items;
    put_all(&mut items, q.items)?;
    let tree = boxed(alloc, Tree::Local(n))?;
    Ok(Lowered {
        items,
        tree,
        free: q.free,
    })
}

/// The same for its effect.
pub fn fill_drop(p: Located, q: Emitted) -> Result<Emitted, NoMemory>
    ensures { IfOk result (λ r. done r ≡ assignments.fill_drop (found p) (done q)) }
{
    let mut items = p.items;
    put_all(&mut items, q.items)?;
    Ok(Emitted {
        items,
        free: q.free,
    })
}
