// Parts that are evaluated in turn: what of a first one is saved before a second one.
ghost use Rattle.std.specs.Prelude.{◌≡◌, IfOk};
ghost use Rattle.c_lower_scheme.specs.Parts as parts;
ghost use Rattle.c_lower_scheme.specs.Values as values;
ghost use Rattle.c_lower_scheme.specs.Assignments as assignments;
ghost use Rattle.c_lower_parts.specs.Views.{tree, all_items, low, two, storage, found, ready};

use crate::item::Item;
use crate::part::{
    Assignable, Frame, Free, Located, Lowered, Pair, Storage, after_if, put_all, put_saved,
};
use crate::place::put_held;
use crate::tree::Tree;
use gg_base::NoMemory;

/// Whether there are no items.
pub fn is_nil(items: &Vec<Item>) -> bool
    ensures { result ≡ parts.is_nil (all_items items.now.items) }
{
    items.is_empty()
}

// Whether a first part is saved before a second one: that may change it, or be wild where the first traps.
fn must(frame: Frame, items: &Vec<Item>, a: &Tree, b: &Tree) -> bool
    ensures { result ≡ values.must frame.locals frame.functions (all_items items.now.items) (tree a.now) (tree b.now) }
{
    if items.is_empty() {
        a.divides() && b.reads()
    } else {
        !a.is_stable(frame.locals)
    }
}

/// Two values that are due in turn.
pub fn join(frame: Frame, p: Lowered, q: Lowered) -> Result<Pair, NoMemory>
    ensures { IfOk result (λ r. two r ≡ values.join frame.locals frame.functions (low p) (low q)) }
{
    let is_saved = must(frame, &q.items, &p.tree, &q.tree);
    let temps = after_if(is_saved, q.free.temps)?;
    let mut items = p.items;
    let first = put_saved(frame.alloc, &mut items, is_saved, q.free.temps, p.tree)?;
    put_all(&mut items, q.items)?;
    Ok(Pair {
        items,
        first,
        second: q.tree,
        free: Free {
            temps,
            labels: q.free.labels,
        },
    })
}

// Whether the address is saved before a value that is assigned to it.
fn must_hold(frame: Frame, between: bool, items: &Vec<Item>, w: &Tree, s: &Storage) -> bool
    ensures { result ≡ assignments.must_hold frame.locals frame.functions between (all_items items.now.items)
        (tree w.now) (storage s.now) }
{
    match s {
        Storage::Local(_) => false,
        Storage::Parameter(_) => false,
        Storage::Memory(a) => must(frame, items, a, w) || between && a.breaks(),
    }
}

/// A place, and the value that is assigned to it; something may be done between the two.
pub fn assign_ready(
    frame: Frame,
    between: bool,
    p: Located,
    q: Lowered,
) -> Result<Assignable, NoMemory>
    ensures { IfOk result (λ r. ready r ≡ assignments.assign_ready frame.locals frame.functions between (found p) (low q)) }
{
    let is_saved = must_hold(frame, between, &q.items, &q.tree, &p.storage);
    let temps = after_if(is_saved, q.free.temps)?;
    let mut items = p.items;
    let storage = put_held(frame.alloc, &mut items, is_saved, q.free.temps, p.storage)?;
    put_all(&mut items, q.items)?;
    Ok(Assignable {
        items,
        ctype: p.ctype,
        storage,
        value: q.tree,
        free: Free {
            temps,
            labels: q.free.labels,
        },
    })
}

/// Whether an address that stands twice is saved, where these items are done between the two.
pub fn must_keep(frame: Frame, items: &Vec<Item>, s: &Storage) -> bool
    ensures { result ≡ assignments.must_keep frame.locals frame.functions (all_items items.now.items) (storage s.now) }
{
    match s {
        Storage::Local(_) => false,
        Storage::Parameter(_) => false,
        Storage::Memory(a) => !(a.is_leaf() && (items.is_empty() || a.is_stable(frame.locals))),
    }
}
