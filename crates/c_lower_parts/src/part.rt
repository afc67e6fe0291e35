// What the parts of a phrase are lowered to, and how they are put together.
ghost use Rattle.std.specs.Prelude.{◌≡◌, ◌++◌, ◌∷◌, [], suc, IfOk, OnOk};
ghost use Rattle.c_lower_scheme.specs.Trees as mirror;
ghost use Rattle.c_lower_scheme.specs.Parts as parts;
ghost use Rattle.c_lower_scheme.specs.Saving as savings;
ghost use Rattle.c_lower_parts.specs.Views.{tree, item, all_items, low, done, destination};

use crate::item::Item;
use crate::tree::{Tree, boxed};
use c_types::{CType, Integer};
use gg_base::NoMemory;
use std::alloc::Global;

/// The first temporary and the first label that are free.
#[derive(Clone, Copy)]
pub struct Free {
    pub temps: u32,
    pub labels: u32,
}

impl Free {
    /// What is free behind the first temporary.
    pub fn past_temp(self) -> Result<Free, NoMemory>
        ensures temps { IfOk result (λ f. f.temps ≡ suc self.temps) }
        ensures labels { IfOk result (λ f. f.labels ≡ self.labels) }
    {
        let temps = after(self.temps)?;
        Ok(Free { temps, ..self })
    }

    /// What is free behind the first label.
    pub fn past_label(self) -> Result<Free, NoMemory>
        ensures temps { IfOk result (λ f. f.temps ≡ self.temps) }
        ensures labels { IfOk result (λ f. f.labels ≡ suc self.labels) }
    {
        let labels = after(self.labels)?;
        Ok(Free { labels, ..self })
    }

    /// What is free behind the first two labels.
    pub fn past_two_labels(self) -> Result<Free, NoMemory>
        ensures temps { IfOk result (λ f. f.temps ≡ self.temps) }
        ensures labels { IfOk result (λ f. f.labels ≡ suc (suc self.labels)) }
    {
        let labels = after(after(self.labels)?)?;
        Ok(Free { labels, ..self })
    }

    /// What is free behind the first temporary and the first label.
    pub fn past_both(self) -> Result<Free, NoMemory>
        ensures temps { IfOk result (λ f. f.temps ≡ suc self.temps) }
        ensures labels { IfOk result (λ f. f.labels ≡ suc self.labels) }
    {
        let temps = after(self.temps)?;
        let labels = after(self.labels)?;
        Ok(Free { temps, labels })
    }
}

/// Items, and a tree that is due directly behind them; behind them, what is free.
#[derive(Drop)]
pub struct Lowered {
    pub items: Vec<Item>,
    pub tree: Box<Tree>,
    pub free: Free,
}

/// The same with two trees, which are due in turn.
#[derive(Drop)]
pub struct Pair {
    pub items: Vec<Item>,
    pub first: Box<Tree>,
    pub second: Box<Tree>,
    pub free: Free,
}

/// Where a value is kept: a local, a parameter, or memory at an address.
#[derive(Drop)]
pub enum Storage {
    Local(u32),
    Parameter(u32),
    Memory(Box<Tree>),
}

/// Where a value goes: into an automatic local, or out of the function as its result.
#[derive(Clone, Copy)]
pub enum Destination {
    Local(u32),
    Caller,
    /// Out of a function that has a block, which is given back before: by the object of the stack's pointer, and the local
    /// that holds the block's address.
    Release(u32, u32),
}

/// When a condition's items go to a label: where its truth is the sense; else they fall through.
#[derive(Clone, Copy)]
pub struct When {
    pub sense: bool,
    pub to: u32,
}

/// The labels that `break` and `continue` go to.
#[derive(Clone, Copy)]
pub struct Exits {
    pub broken: u32,
    pub onward: u32,
}

/// Items and a place, whose address is due, and the type of what is kept there.
#[derive(Drop)]
pub struct Located {
    pub items: Vec<Item>,
    pub ctype: CType,
    pub storage: Storage,
    pub free: Free,
}

/// The same with a place and the value that is assigned to it, both due.
#[derive(Drop)]
pub struct Assignable {
    pub items: Vec<Item>,
    pub ctype: CType,
    pub storage: Storage,
    pub value: Box<Tree>,
    pub free: Free,
}

/// The same with the arguments of a call, which are due in turn; quiet where no argument has items of its own.
#[derive(Drop)]
pub struct Passing {
    pub items: Vec<Item>,
    pub trees: Vec<Tree>,
    pub is_quiet: bool,
    pub free: Free,
}

/// Items alone.
#[derive(Drop)]
pub struct Emitted {
    pub items: Vec<Item>,
    pub free: Free,
}

/// The number of a function's automatic locals, that of the first temporary, the number of functions, and where a function's
/// result goes. Where it has a block, the local between its automatic ones and the temporaries holds the block's address.
#[derive(Clone, Copy)]
pub struct Frame {
    pub alloc: Global,
    pub locals: u32,
    pub first: u32,
    pub functions: u32,
    pub out: Destination,
}

/// The next number. Numbers of temporaries and labels have 32 bits; more would need more memory than there is.
pub fn after(n: u32) -> Result<u32, NoMemory>
    ensures { IfOk result (λ m. m ≡ suc n) }
{
    n.checked_add(1).ok_or(NoMemory)
}

/// The next number if a temporary is taken.
pub fn after_if(is_taken: bool, n: u32) -> Result<u32, NoMemory>
    ensures { IfOk result (λ m. m ≡ savings.next_if is_taken n) }
{
    if is_taken { after(n) } else { Ok(n) }
}

/// One more item.
pub fn put(items: &mut Vec<Item>, last: Item) -> Result<(), NoMemory>
    ensures { OnOk result (all_items items.new.items ≡ all_items items.old.items ++ (item last ∷ [])) }
{
    items.push(last)?;
    Ok(())
}

/// More items.
pub fn put_all(items: &mut Vec<Item>, mut more: Vec<Item>) -> Result<(), NoMemory>
    ensures { OnOk result (all_items items.new.items ≡ all_items items.old.items ++ all_items more.items) }
{
    items.append(&mut more)?;
    Ok(())
}

/// A tree goes into a temporary, or stays as it is.
pub fn put_saved(
    alloc: Global,
    items: &mut Vec<Item>,
    is_saved: bool,
    n: u32,
    w: Box<Tree>,
) -> Result<Box<Tree>, NoMemory>
    ensures tree { IfOk result (λ r. tree r.value ≡ savings.saved is_saved n (tree w.value)) }
    ensures items { OnOk result (all_items items.new.items ≡ all_items items.old.items ++ savings.saving is_saved n (tree w.value)) }
{
    if is_saved {
        put(items, Item::AssignLocal(n, Box::into_inner(w)))?;
        boxed(alloc, Tree::Local(n))
    } else {
        Ok(w)
    }
}

/// A tree without items.
pub fn due(alloc: Global, w: Box<Tree>, free: Free) -> Lowered
    ensures { low result ≡ parts.due (tree w.value) free.temps free.labels }
{
    Lowered {
        items: Vec::new(alloc),
        tree: w,
        free,
    }
}

/// A tree of one token without items.
pub fn leaf(alloc: Global, w: Tree, free: Free) -> Result<Lowered, NoMemory>
    ensures { IfOk result (λ r. low r ≡ parts.due (tree w) free.temps free.labels) }
{
    Ok(due(alloc, boxed(alloc, w)?, free))
}

/// Nothing at all.
pub fn nothing(alloc: Global, free: Free) -> Emitted
    ensures { done result ≡ parts.nothing free.temps free.labels }
{
    Emitted {
        items: Vec::new(alloc),
        free,
    }
}

/// Other items in front.
pub fn with_done(a: Emitted, p: Lowered) -> Result<Lowered, NoMemory>
    ensures { IfOk result (λ r. low r ≡ parts.with_done (done a) (low p)) }
{
    let mut items = a.items;
    put_all(&mut items, p.items)?;
    Ok(Lowered {
        items,
        tree: p.tree,
        free: p.free,
    })
}

/// One part behind another.
pub fn then_done(a: Emitted, b: Emitted) -> Result<Emitted, NoMemory>
    ensures { IfOk result (λ r. done r ≡ parts.then_done (done a) (done b)) }
{
    let mut items = a.items;
    put_all(&mut items, b.items)?;
    Ok(Emitted {
        items,
        free: b.free,
    })
}

// A value by one root.
fn by_root(mut items: Vec<Item>, root: Item, free: Free) -> Result<Emitted, NoMemory>
    ensures { IfOk result (λ r. done r ≡ record {
      items = all_items items.items
          ++ (item root ∷ []);
      temps = free.temps;
      labels = free.labels;
    }) }
{
    put(&mut items, root)?;
    Ok(Emitted { items, free })
}

// A value leaves a function whose block is given back. What it reads of memory it reads before.
fn released(alloc: Global, pointer: u32, local: u32, p: Lowered) -> Result<Emitted, NoMemory>
    ensures { IfOk result (λ r. done r ≡ parts.released pointer local (low p)) }
{
    let is_saved = p.tree.reads();
    let temps = after_if(is_saved, p.free.temps)?;
    let mut items = p.items;
    let tree = put_saved(alloc, &mut items, is_saved, p.free.temps, p.tree)?;
    put(
        &mut items,
        Item::AssignMemory(Integer::Int, Tree::Object(pointer), Tree::Local(local)),
    )?;
    put(&mut items, Item::Return(Box::into_inner(tree)))?;
    Ok(Emitted {
        items,
        free: Free {
            temps,
            labels: p.free.labels,
        },
    })
}

/// A value at its destination.
pub fn delivered(alloc: Global, to: Destination, p: Lowered) -> Result<Emitted, NoMemory>
    ensures { IfOk result (λ r. done r ≡ parts.delivered (destination to) (low p)) }
{
    match to {
        Destination::Local(n) => by_root(
            p.items,
            Item::AssignLocal(n, Box::into_inner(p.tree)),
            p.free,
        ),
        Destination::Caller => by_root(p.items, Item::Return(Box::into_inner(p.tree)), p.free),
        Destination::Release(pointer, local) => released(alloc, pointer, local, p),
    }
}

/// A part, and the label l behind it.
pub fn labelled(l: u32, p: Emitted) -> Result<Emitted, NoMemory>
    ensures { IfOk result (λ r. done r ≡ record {
      items = all_items p.items.items
          ++ (mirror.Label l ∷ []);
      temps = p.free.temps;
      labels = p.free.labels;
    }) }
{
    let mut items = p.items;
    put(&mut items, Item::Label(l))?;
    Ok(Emitted {
        items,
        free: p.free,
    })
}
