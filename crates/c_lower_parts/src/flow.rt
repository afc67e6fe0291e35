// How the parts of statements are put together.
ghost use Rattle.std.specs.Prelude.{◌≡◌, ◌∷◌, [], suc, IfOk};
ghost use Rattle.c_types.specs.declared.typed.ArithmeticOperator.TheVariants as ariths;
ghost use Rattle.c_lower_scheme.specs.Trees as mirror;
ghost use Rattle.c_lower_scheme.specs.Flow as flows;
ghost use Rattle.c_lower_parts.specs.Views.{tree, done, low};

use crate::item::Item;
use crate::part::{Emitted, Frame, Free, Lowered, after, put, put_all};
use crate::place::in_block;
use crate::tree::{Tree, binary, boxed, indirect, integer_of, of_leaves};
use c_types::typed::BLOCK_LIMIT;
use c_types::{ArithmeticOperator, CType, Integer};
use gg_base::{NoMemory, Rel};
use std::alloc::Global;

/// One statement behind another.
pub fn two_done(a: Emitted, b: Emitted) -> Result<Emitted, NoMemory>
    ensures { IfOk result (λ r. done r ≡ flows.two_done (done a) (done b)) }
{
    let mut items = a.items;
    put_all(&mut items, b.items)?;
    Ok(Emitted {
        items,
        free: Free {
            temps: a.free.temps.max(b.free.temps),
            labels: b.free.labels,
        },
    })
}

/// An automatic local that begins with a value; it is 0 before where its initialiser reads it.
pub fn begin_of(alloc: Global, is_read: bool, local: u32, p: Emitted) -> Result<Emitted, NoMemory>
    ensures { IfOk result (λ r. done r ≡ flows.begin_of is_read local (done p)) }
{
    let mut items = Vec::new(alloc);
    if is_read {
        put(&mut items, Item::AssignLocal(local, Tree::Number(0)))?;
    }
    put_all(&mut items, p.items)?;
    Ok(Emitted {
        items,
        free: p.free,
    })
}

/// An automatic local before its declaration's others: its zero, where that is written.
pub fn cleared(frame: Frame, is_zeroed: bool, local: u32, l: u32) -> Result<Emitted, NoMemory>
    ensures { IfOk result (λ r. done r ≡ record { items = flows.clearing is_zeroed local; temps = frame.first; labels = l }) }
{
    let mut items = Vec::new(frame.alloc);
    if is_zeroed {
        put(&mut items, Item::AssignLocal(local, Tree::Number(0)))?;
    }
    Ok(Emitted {
        items,
        free: Free {
            temps: frame.first,
            labels: l,
        },
    })
}

/// An `if`, whose end is the label l.
pub fn if_done(l: u32, p: Emitted, a: Emitted) -> Result<Emitted, NoMemory>
    ensures { IfOk result (λ r. done r ≡ flows.if_done l (done p) (done a)) }
{
    let mut items = p.items;
    put_all(&mut items, a.items)?;
    put(&mut items, Item::Label(l))?;
    Ok(Emitted {
        items,
        free: Free {
            temps: p.free.temps.max(a.free.temps),
            labels: a.free.labels,
        },
    })
}

/// An `if` with an `else`.
pub fn if_else_done(l: u32, p: Emitted, a: Emitted, b: Emitted) -> Result<Emitted, NoMemory>
    ensures { IfOk result (λ r. done r ≡ flows.if_else_done l (done p) (done a) (done b)) }
{
    let end = after(l)?;
    let mut items = p.items;
    put_all(&mut items, a.items)?;
    put(&mut items, Item::Jump(end))?;
    put(&mut items, Item::Label(l))?;
    put_all(&mut items, b.items)?;
    put(&mut items, Item::Label(end))?;
    Ok(Emitted {
        items,
        free: Free {
            temps: p.free.temps.max(a.free.temps.max(b.free.temps)),
            labels: b.free.labels,
        },
    })
}

/// A loop whose test stands behind its body, from a jump on: the top is the label l, the test and `continue` the one behind l, and the end
/// the one behind that.
pub fn loop_done(
    alloc: Global,
    to: u32,
    l: u32,
    a: Emitted,
    p: Emitted,
) -> Result<Emitted, NoMemory>
    ensures { IfOk result (λ r. done r ≡ flows.loop_done to l (done a) (done p)) }
{
    let onward = after(l)?;
    let end = after(onward)?;
    let mut items = Vec::new(alloc);
    put(&mut items, Item::Jump(to))?;
    put(&mut items, Item::Label(l))?;
    put_all(&mut items, a.items)?;
    put(&mut items, Item::Label(onward))?;
    put_all(&mut items, p.items)?;
    put(&mut items, Item::Label(end))?;
    Ok(Emitted {
        items,
        free: Free {
            temps: a.free.temps.max(p.free.temps),
            labels: p.free.labels,
        },
    })
}

/// A `while` whose test stands in front, at the label l, and whose end is the next label.
pub fn while_done(alloc: Global, l: u32, p: Emitted, a: Emitted) -> Result<Emitted, NoMemory>
    ensures { IfOk result (λ r. done r ≡ flows.while_done l (done p) (done a)) }
{
    let end = after(l)?;
    let mut items = Vec::new(alloc);
    put(&mut items, Item::Label(l))?;
    put_all(&mut items, p.items)?;
    put_all(&mut items, a.items)?;
    put(&mut items, Item::Jump(l))?;
    put(&mut items, Item::Label(end))?;
    Ok(Emitted {
        items,
        free: Free {
            temps: p.free.temps.max(a.free.temps),
            labels: a.free.labels,
        },
    })
}

/// A `for` whose test stands behind its step: the top is the label l, then come the labels of `continue`, of the end and of the test.
pub fn turns_done(
    alloc: Global,
    l: u32,
    a: Emitted,
    s: Emitted,
    p: Emitted,
) -> Result<Emitted, NoMemory>
    ensures { IfOk result (λ r. done r ≡ flows.turns_done l (done a) (done s) (done p)) }
{
    let onward = after(l)?;
    let end = after(onward)?;
    let test = after(end)?;
    let mut items = Vec::new(alloc);
    put(&mut items, Item::Jump(test))?;
    put(&mut items, Item::Label(l))?;
    put_all(&mut items, a.items)?;
    put(&mut items, Item::Label(onward))?;
    put_all(&mut items, s.items)?;
    put(&mut items, Item::Label(test))?;
    put_all(&mut items, p.items)?;
    put(&mut items, Item::Label(end))?;
    Ok(Emitted {
        items,
        free: Free {
            temps: a.free.temps.max(s.free.temps.max(p.free.temps)),
            labels: p.free.labels,
        },
    })
}

/// A `for` whose test stands in front.
pub fn for_done(
    alloc: Global,
    l: u32,
    p: Emitted,
    a: Emitted,
    s: Emitted,
) -> Result<Emitted, NoMemory>
    ensures { IfOk result (λ r. done r ≡ flows.for_done l (done p) (done a) (done s)) }
{
    let onward = after(l)?;
    let end = after(onward)?;
    let mut items = Vec::new(alloc);
    put(&mut items, Item::Label(l))?;
    put_all(&mut items, p.items)?;
    put_all(&mut items, a.items)?;
    put(&mut items, Item::Label(onward))?;
    put_all(&mut items, s.items)?;
    put(&mut items, Item::Jump(l))?;
    put(&mut items, Item::Label(end))?;
    Ok(Emitted {
        items,
        free: Free {
            temps: p.free.temps.max(a.free.temps.max(s.free.temps)),
            labels: s.free.labels,
        },
    })
}

/// A `for` without a test.
pub fn ever_done(alloc: Global, l: u32, a: Emitted, s: Emitted) -> Result<Emitted, NoMemory>
    ensures { IfOk result (λ r. done r ≡ flows.ever_done l (done a) (done s)) }
{
    let onward = after(l)?;
    let end = after(onward)?;
    let mut items = Vec::new(alloc);
    put(&mut items, Item::Jump(l))?;
    put(&mut items, Item::Label(l))?;
    put_all(&mut items, a.items)?;
    put(&mut items, Item::Label(onward))?;
    put_all(&mut items, s.items)?;
    put(&mut items, Item::Jump(l))?;
    put(&mut items, Item::Label(end))?;
    Ok(Emitted {
        items,
        free: Free {
            temps: a.free.temps.max(s.free.temps),
            labels: s.free.labels,
        },
    })
}

/// A value that is stored at an offset of the block.
pub fn stored_in_block(
    frame: Frame,
    of: CType,
    offset: u32,
    p: Lowered,
) -> Result<Emitted, NoMemory>
    ensures { IfOk result (λ r. done r ≡ flows.stored_in_block frame.locals of offset (low p)) }
{
    let place = in_block(frame, offset)?;
    let mut items = p.items;
    put(
        &mut items,
        Item::AssignMemory(
            integer_of(of),
            Box::into_inner(place),
            Box::into_inner(p.tree),
        ),
    )?;
    Ok(Emitted {
        items,
        free: p.free,
    })
}

/// Zeros in so many elements of the block, from an offset on: a loop over their addresses, from the label l.
pub fn zeros_in_block(
    frame: Frame,
    of: CType,
    offset: u32,
    count: u32,
    l: u32,
) -> Result<Emitted, NoMemory>
    ensures { IfOk result (λ r. done r ≡ flows.zeros_in_block frame.locals frame.first of offset count l) }
{
    let t = frame.first;
    let length = count.checked_mul(of.size()).ok_or(NoMemory)?;
    let end = offset.checked_add(length).ok_or(NoMemory)?;
    let mut items = Vec::new(frame.alloc);
    let begin = in_block(frame, offset)?;
    put(&mut items, Item::AssignLocal(t, Box::into_inner(begin)))?;
    put(&mut items, Item::Label(l))?;
    put(
        &mut items,
        Item::AssignMemory(integer_of(of), Tree::Local(t), Tree::Number(0)),
    )?;
    let next = of_leaves(
        frame.alloc,
        ArithmeticOperator::Add,
        Tree::Local(t),
        Tree::Number(of.size()),
    )?;
    put(&mut items, Item::AssignLocal(t, Box::into_inner(next)))?;
    let behind = in_block(frame, end)?;
    put(
        &mut items,
        Item::Branch(Rel::Ne, l, Tree::Local(t), Box::into_inner(behind)),
    )?;
    Ok(Emitted {
        items,
        free: Free {
            temps: after(t)?,
            labels: after(l)?,
        },
    })
}

// What the stack has behind its pointer, which a local holds.
fn room(alloc: Global, pointer: u32, begin: u32) -> Result<Box<Tree>, NoMemory>
    ensures { IfOk result (λ r. tree r.value ≡ mirror.Bin ariths.Subtract (mirror.Bin ariths.Add
        (mirror.Gaddr (suc pointer)) (mirror.Num 262144)) (mirror.Loc begin)) }
{
    let stack = after(pointer)?;
    let end = of_leaves(
        alloc,
        ArithmeticOperator::Add,
        Tree::Object(stack),
        Tree::Number(BLOCK_LIMIT),
    )?;
    binary(
        alloc,
        ArithmeticOperator::Subtract,
        end,
        boxed(alloc, Tree::Local(begin))?,
    )
}

/// A block of so many bytes is taken: where the stack has no such room, a division by zero traps. The label l is behind it.
pub fn claimed(frame: Frame, pointer: u32, block: u32, l: u32) -> Result<Emitted, NoMemory>
    ensures { IfOk result (λ r. done r ≡ flows.claimed frame.locals frame.first pointer block l) }
{
    let alloc = frame.alloc;
    let begin = frame.locals;
    let mut items = Vec::new(alloc);
    let held = indirect(alloc, Integer::Int, boxed(alloc, Tree::Object(pointer))?)?;
    put(&mut items, Item::AssignLocal(begin, Box::into_inner(held)))?;
    let room = room(alloc, pointer, begin)?;
    put(
        &mut items,
        Item::Branch(Rel::Geu, l, Box::into_inner(room), Tree::Number(block)),
    )?;
    let trap = of_leaves(
        alloc,
        ArithmeticOperator::Divide,
        Tree::Number(0),
        Tree::Number(0),
    )?;
    put(&mut items, Item::AssignLocal(begin, Box::into_inner(trap)))?;
    put(&mut items, Item::Label(l))?;
    let behind = of_leaves(
        alloc,
        ArithmeticOperator::Add,
        Tree::Local(begin),
        Tree::Number(block),
    )?;
    put(
        &mut items,
        Item::AssignMemory(Integer::Int, Tree::Object(pointer), Box::into_inner(behind)),
    )?;
    Ok(Emitted {
        items,
        free: Free {
            temps: frame.first,
            labels: after(l)?,
        },
    })
}

/// A jump to a label.
pub fn jump(frame: Frame, to: u32, l: u32) -> Result<Emitted, NoMemory>
    ensures { IfOk result (λ r. done r ≡ record { items = mirror.Jump to ∷ []; temps = frame.first; labels = l }) }
{
    let mut items = Vec::new(frame.alloc);
    put(&mut items, Item::Jump(to))?;
    Ok(Emitted {
        items,
        free: Free {
            temps: frame.first,
            labels: l,
        },
    })
}
