// Conditions, and choices by them.
ghost use Rattle.std.specs.Prelude.{◌≡◌, IfOk};
ghost use Rattle.c_lower_scheme.specs.Trees as mirror;
ghost use Rattle.c_lower_scheme.specs.Conditions as conditions;
ghost use Rattle.c_lower_parts.specs.Views.{low, two, done, destination};

use crate::item::Item;
use crate::part::{
    Destination, Emitted, Free, Lowered, Pair, When, after, after_if, put, put_all, put_saved,
};
use crate::tree::{Tree, boxed};
use gg_base::{NoMemory, Rel};
use std::alloc::Global;

// The relation that holds where another does not.
fn opposite(r: Rel) -> Rel
    ensures { result ≡ mirror.opposite r }
{
    match r {
        Rel::Eq => Rel::Ne,
        Rel::Ne => Rel::Eq,
        Rel::Lt => Rel::Ge,
        Rel::Le => Rel::Gt,
        Rel::Gt => Rel::Le,
        Rel::Ge => Rel::Lt,
        Rel::Ltu => Rel::Geu,
        Rel::Leu => Rel::Gtu,
        Rel::Gtu => Rel::Leu,
        Rel::Geu => Rel::Ltu,
    }
}

/// The relation, or its opposite where the sense is false.
pub fn sensed(sense: bool, r: Rel) -> Rel
    ensures { result ≡ mirror.sensed sense r }
{
    if sense { r } else { opposite(r) }
}

/// The value of a condition is made in the first free temporary; its items go to the first free label where it is false.
pub fn truth_of(alloc: Global, free: Free, p: Emitted) -> Result<Lowered, NoMemory>
    ensures { IfOk result (λ r. low r ≡ conditions.truth_of free.temps free.labels (done p)) }
{
    let mut items = Vec::new(alloc);
    put(&mut items, Item::AssignLocal(free.temps, Tree::Number(0)))?;
    put_all(&mut items, p.items)?;
    put(&mut items, Item::AssignLocal(free.temps, Tree::Number(1)))?;
    put(&mut items, Item::Label(free.labels))?;
    let tree = boxed(alloc, Tree::Local(free.temps))?;
    Ok(Lowered {
        items,
        tree,
        free: p.free,
    })
}

/// A value as a condition.
pub fn test(when: When, p: Lowered) -> Result<Emitted, NoMemory>
    ensures { IfOk result (λ r. done r ≡ conditions.test when.sense when.to (low p)) }
{
    let mut items = p.items;
    put(
        &mut items,
        Item::Branch(
            sensed(when.sense, Rel::Ne),
            when.to,
            Box::into_inner(p.tree),
            Tree::Number(0),
        ),
    )?;
    Ok(Emitted {
        items,
        free: p.free,
    })
}

/// Two values as a condition.
pub fn compare(r: Rel, to: u32, p: Pair) -> Result<Emitted, NoMemory>
    ensures { IfOk result (λ d. done d ≡ conditions.compare r to (two p)) }
{
    let mut items = p.items;
    put(
        &mut items,
        Item::Branch(r, to, Box::into_inner(p.first), Box::into_inner(p.second)),
    )?;
    Ok(Emitted {
        items,
        free: p.free,
    })
}

/// A value that is dropped: it is evaluated where that may break.
pub fn dropped(alloc: Global, p: Lowered) -> Result<Emitted, NoMemory>
    ensures { IfOk result (λ r. done r ≡ conditions.dropped (low p)) }
{
    let is_evaluated = p.tree.breaks();
    let temps = after_if(is_evaluated, p.free.temps)?;
    let mut items = p.items;
    put_saved(alloc, &mut items, is_evaluated, p.free.temps, p.tree)?;
    Ok(Emitted {
        items,
        free: Free {
            temps,
            labels: p.free.labels,
        },
    })
}

/// The value of a choice, in the first free temporary, by the first free label and the one behind it.
pub fn choose_low(
    alloc: Global,
    free: Free,
    p: Emitted,
    q: Lowered,
    r: Lowered,
) -> Result<Lowered, NoMemory>
    ensures { IfOk result (λ x. low x ≡ conditions.choose_low free.temps free.labels (done p) (low q) (low r)) }
{
    let end = after(free.labels)?;
    let mut items = p.items;
    put_all(&mut items, q.items)?;
    put(
        &mut items,
        Item::AssignLocal(free.temps, Box::into_inner(q.tree)),
    )?;
    put(&mut items, Item::Jump(end))?;
    put(&mut items, Item::Label(free.labels))?;
    put_all(&mut items, r.items)?;
    put(
        &mut items,
        Item::AssignLocal(free.temps, Box::into_inner(r.tree)),
    )?;
    put(&mut items, Item::Label(end))?;
    let tree = boxed(alloc, Tree::Local(free.temps))?;
    Ok(Lowered {
        items,
        tree,
        free: r.free,
    })
}

/// The effect of a choice.
pub fn choose_drop(l: u32, p: Emitted, q: Emitted, r: Emitted) -> Result<Emitted, NoMemory>
    ensures { IfOk result (λ x. done x ≡ conditions.choose_drop l (done p) (done q) (done r)) }
{
    let end = after(l)?;
    let mut items = p.items;
    put_all(&mut items, q.items)?;
    put(&mut items, Item::Jump(end))?;
    put(&mut items, Item::Label(l))?;
    put_all(&mut items, r.items)?;
    put(&mut items, Item::Label(end))?;
    Ok(Emitted {
        items,
        free: r.free,
    })
}

// A choice whose sides leave the function: no jump stands behind the first.
fn choose_leave(l: u32, p: Emitted, q: Emitted, r: Emitted) -> Result<Emitted, NoMemory>
    ensures { IfOk result (λ x. done x ≡ conditions.choose_leave l (done p) (done q) (done r)) }
{
    let mut items = p.items;
    put_all(&mut items, q.items)?;
    put(&mut items, Item::Label(l))?;
    put_all(&mut items, r.items)?;
    Ok(Emitted {
        items,
        free: r.free,
    })
}

/// A choice whose sides go to a destination.
pub fn choose_deliver(
    to: Destination,
    l: u32,
    p: Emitted,
    q: Emitted,
    r: Emitted,
) -> Result<Emitted, NoMemory>
    ensures { IfOk result (λ x. done x ≡ conditions.choose_deliver (destination to) l (done p) (done q) (done r)) }
{
    match to {
        Destination::Local(_) => choose_drop(l, p, q, r),
        Destination::Caller => choose_leave(l, p, q, r),
        Destination::Release(_, _) => choose_leave(l, p, q, r),
    }
}
