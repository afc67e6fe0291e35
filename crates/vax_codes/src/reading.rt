// Where the condition code C may be read.
ghost use Rattle.std.specs.Prelude.{◌≡◌, ◌+◌, ◌<◌, ◌↔◌, ℕ, length, true, false, IfOk, OnOk, Some, slice_get, slice_index_or};
ghost use Rattle.vax_alike.specs.Corresponding.{keeps_carry};
ghost use Rattle.vax_codes.specs.Carry.{MayRead};
ghost use Rattle.vax_codes.specs.Marks.{Adds, Empty};
ghost use Rattle.vax_codes.specs.Reading.{passes_on, asks, Brings, IsPartOf};
ghost use Rattle.vax_codes.specs.Sources.{AreSources};

use crate::marks::Marks;
use crate::sources::Sources;
use gg_base::NoMemory;
use std::alloc::Global;
use vax_core::CodeItem;
use vax_machine::function::{Action, Function, Test, action_of};

// Whether C is as it was behind what is computed.
fn keeps_carry(function: Function) -> bool
    ensures { result ≡ keeps_carry function }
{
    matches!(
        function,
        Function::Copy(_)
            | Function::Clear
            | Function::Complement
            | Function::BitSet
            | Function::BitClear
            | Function::ExclusiveOr
            | Function::BitTest
    )
}

// Whether C may be read at an item where it may be read at the one behind it.
fn passes_on(item: &CodeItem) -> bool
    ensures { result ≡ passes_on (Some item.now) }
{
    match item {
        CodeItem::Label(_) | CodeItem::Globl(_) => true,
        CodeItem::Mask(_) => false,
        CodeItem::Instr(instr) => match action_of(instr.op) {
            Action::Compute(function) => keeps_carry(function),
            Action::Push => true,
            Action::Branch(test) => !matches!(test, Test::Always),
            Action::Call | Action::Return => false,
        },
    }
}

// Whether an item is a branch that reads C.
fn asks(item: &CodeItem) -> bool
    ensures { result ≡ asks (Some item.now) }
{
    let CodeItem::Instr(instr) = item else {
        return false;
    };
    matches!(
        action_of(instr.op),
        Action::Branch(
            Test::LessUnsigned
                | Test::LessOrEqualUnsigned
                | Test::GreaterUnsigned
                | Test::GreaterOrEqualUnsigned
        )
    )
}

// An item is put into the set if it is a branch that reads C.
fn ask(marks: &mut Marks, item: &CodeItem, place: usize) -> Result<(), NoMemory>
    requires { place < length marks.old.marked.items }
    ensures { OnOk result (Adds (λ p. (p ≡ place) × (asks (Some item.now) ≡ true)) marks.old marks.new) }
{
    if !asks(item) {
        return Ok(());
    }
    marks.add(place)?;
    Ok(())
}

fn ask_all(marks: &mut Marks, items: &[CodeItem]) -> Result<(), NoMemory>
    requires { Empty marks.old (length items.now + 1) }
    ensures { OnOk result (IsPartOf items.now marks.new) }
{
    for (place, item) in items.iter().enumerate() {
        ask(marks, item, place)?;
    }
    Ok(())
}

// The place before one at which C may be read is put into the set if C may be read there for that.
fn bring_before(marks: &mut Marks, items: &[CodeItem], place: usize) -> Result<(), NoMemory>
    requires each { length marks.old.marked.items ≡ length items.now + 1 }
    requires place { place < length items.now + 1 }
    ensures { OnOk result (Adds (λ p. (p + 1 ≡ place) × (passes_on (slice_get items.now p) ≡ true)) marks.old marks.new) }
{
    if place == 0 || !passes_on(&items[place - 1]) {
        return Ok(());
    }
    marks.add(place - 1)?;
    Ok(())
}

// What a place at which C may be read brings into the set.
fn bring(
    marks: &mut Marks,
    items: &[CodeItem],
    sources: &Sources,
    place: usize,
) -> Result<(), NoMemory>
    requires each { length marks.old.marked.items ≡ length items.now + 1 }
    requires sources { AreSources items.now sources.now }
    requires place { place < length items.now + 1 }
    ensures { OnOk result (Adds (λ p. Brings items.now place p) marks.old marks.new) }
{
    bring_before(marks, items, place)?;
    marks.add_all(sources.to(place))?;
    Ok(())
}

/// For each place of a code, and the one behind it, whether C may be read there.
pub(crate) fn carry_places(alloc: Global, items: &[CodeItem]) -> Result<Vec<bool>, NoMemory>
    ensures each { IfOk result (λ v. length v.items ≡ length items.now + 1) }
    ensures read { IfOk result (λ v. (p : ℕ) → (slice_index_or v.items p false ≡ true) ↔ MayRead items.now p) }
{
    let sources = Sources::of(alloc, items)?;
    let mut marks = Marks::none(alloc, items.len() + 1)?;
    ask_all(&mut marks, items)?;
    while let Some(place) = marks.take() {
        bring(&mut marks, items, &sources, place)?;
    }
    Ok(marks.into_marked())
}
