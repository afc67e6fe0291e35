// A pass by which branches go where a chain of jumps leads.
ghost use Rattle.std.specs.Prelude.{◌≡◌, ◌<◌, ◌≤◌, ℕ, List, length, IfOk, OnOk, Some, slice_get, slice_index_or, map, reverse};
ghost use Rattle.vax_codes.specs.Hops.{is_jump_at, hop_of, target_of, last_of, hops_of, AreInside, AreStepsOn, AreFar, AreLast};
ghost use Rattle.vax_codes.specs.Nexts.{AreNexts};
ghost use Rattle.vax_codes.specs.Turning.{relabelled, one_turned};

use crate::nexts::Nexts;
use gg_base::{ListOf, Name, NoMemory};
use std::alloc::Global;
use vax_core::{Code, CodeItem, Instr, Op};
use vax_passes::Pass;

/// Has each branch go to the last label of the chain of jumps that begins with its label, as long as it can count them. A chain that turns
/// in a circle has no last label.
#[derive(Drop)]
pub struct JumpChain {
    alloc: Global,
    made: u64,
}

impl JumpChain {
    /// A pass that has made no changes.
    pub fn new(alloc: Global) -> JumpChain
        ensures { result.made ≡ 0 }
    {
        JumpChain { alloc, made: 0 }
    }

    // One item more in front of what is kept, whose items stand in reverse order: as it was, or with its label changed, and counted.
    fn keep(
        &mut self,
        kept: &mut Vec<CodeItem>,
        item: CodeItem,
        name: Option<Name>,
    ) -> Result<(), NoMemory>
        ensures kept { OnOk result (record { made = self.new.made; items = reverse kept.new.items }
            ≡ one_turned item name (record { made = self.old.made; items = reverse kept.old.items })) }
        ensures rises { self.old.made ≤ self.new.made }
    {
        match name {
            Some(name) if self.made < u64::MAX => {
                self.made += 1;
                kept.push(relabelled(item, name))?;
            }
            _ => kept.push(item)?,
        }
        Ok(())
    }
}

fn relabelled(item: CodeItem, name: Name) -> CodeItem
    ensures { result ≡ relabelled item name }
{
    match item {
        CodeItem::Instr(Instr { op, operands, .. }) => CodeItem::Instr(Instr {
            op,
            operands,
            target: Some(name),
        }),
        other => other,
    }
}

fn is_jump_at(items: &[CodeItem], place: usize) -> bool
    ensures { result ≡ is_jump_at (slice_get items.now place) }
{
    match items.get(place) {
        Some(CodeItem::Instr(instr)) => matches!(instr.op, Op::Jbr) && instr.target.is_some(),
        _ => false,
    }
}

// The place of the jump behind the label to which the item goes, if it is a branch.
fn hop(item: &CodeItem, items: &[CodeItem], nexts: &Nexts) -> Option<usize>
    requires { AreNexts nexts.now items.now }
    ensures { result ≡ hop_of items.now (Some item.now) }
{
    let next = nexts.goal(item)?;
    if is_jump_at(items, next) {
        Some(next)
    } else {
        None
    }
}

fn hops(alloc: Global, items: &[CodeItem]) -> Result<Vec<Option<usize>>, NoMemory>
    ensures { IfOk result (λ v. v.items ≡ hops_of items.now) }
{
    let nexts = Nexts::of(alloc, items)?;
    let mut hops = Vec::new(alloc);
    for item in items {
        hops.push(hop(item, items, &nexts))?;
    }
    Ok(hops)
}

// From each place the place of the hop from there, or itself.
fn first_steps(alloc: Global, hops: &[Option<usize>]) -> Result<Vec<usize>, NoMemory>
    ensures { IfOk result (λ v. AreStepsOn hops.now 1 v.items) }
{
    let mut places = Vec::new(alloc);
    for (place, hop) in hops.iter().enumerate() {
        places.push(hop.unwrap_or(place))?;
    }
    Ok(places)
}

// From each place the place to which twice as many steps lead.
fn twice(alloc: Global, places: &[usize]) -> Result<Vec<usize>, NoMemory>
    requires { (p : ℕ) → p < length places.now → slice_index_or places.now p 0 < length places.now }
    ensures each { IfOk result (λ v. length v.items ≡ length places.now) }
    ensures place { IfOk result (λ v. (p : ℕ) → p < length places.now
        → slice_index_or v.items p 0 ≡ slice_index_or places.now (slice_index_or places.now p 0) 0) }
{
    let mut twice = Vec::new(alloc);
    for place in places {
        twice.push(places[*place])?;
    }
    Ok(twice)
}

// From each place the place to which as many steps lead as there are places, or more: where a chain ends, it has ended there.
fn far_places(alloc: Global, hops: &[Option<usize>]) -> Result<Vec<usize>, NoMemory>
    requires { AreInside hops.now }
    ensures { IfOk result (λ v. AreFar hops.now v.items) }
{
    let mut places = first_steps(alloc, hops)?;
    let mut steps: usize = 1;
    while steps < hops.len() {
        places = twice(alloc, &places)?;
        steps *= 2;
    }
    Ok(places)
}

fn target_of(alloc: Global, item: &CodeItem) -> Result<Option<Name>, NoMemory>
    ensures { IfOk result (λ o. o ≡ target_of (Some item.now)) }
{
    match item {
        CodeItem::Instr(
            Instr {
                target: Some(name),
                ..
            },
        ) => Ok(Some(Name::copy_of(alloc, name.as_slice())?)),
        _ => Ok(None),
    }
}

// The last label of the chain that begins with the label of the item at a place, if that is a branch, and the chain has an end that is
// another label.
fn last_name(
    alloc: Global,
    items: &[CodeItem],
    hops: &[Option<usize>],
    places: &[usize],
    place: usize,
) -> Result<Option<Name>, NoMemory>
    requires place { place < length hops.now }
    requires places { length places.now ≡ length hops.now }
    requires items { length items.now ≡ length hops.now }
    requires inside { slice_index_or places.now place 0 < length hops.now }
    ensures { IfOk result (λ o. o ≡ last_of items.now hops.now places.now place) }
{
    let last = places[place];
    if hops[place].is_some() && hops[last].is_none() {
        target_of(alloc, &items[last])
    } else {
        Ok(None)
    }
}

fn last_names(alloc: Global, items: &[CodeItem]) -> Result<Vec<Option<Name>>, NoMemory>
    ensures { IfOk result (λ v. AreLast items.now v.items) }
{
    let hops = hops(alloc, items)?;
    let places = far_places(alloc, &hops)?;
    let mut names = Vec::new(alloc);
    for place in 0..items.len() {
        names.push(last_name(alloc, items, &hops, &places, place)?)?;
    }
    Ok(names)
}

impl Pass for JumpChain {
    ghost use Rattle.vax_codes.specs.Chains.{TurnsChains};

    ghost made = { λ p. p.made };

    ghost wrote = { λ p n c d. TurnsChains p.made n c d };

    fn rewrite(&mut self, code: Code) -> Result<Code, NoMemory> {
        let Code { area, items } = code;
        let mut names = last_names(self.alloc, items.as_slice())?;
        let mut left = items.into_vec();
        let mut kept = Vec::new(self.alloc);
        while let Some(item) = left.pop() {
            let name = names.pop().flatten();
            self.keep(&mut kept, item, name)?;
        }
        kept.reverse();
        Ok(Code {
            area,
            items: ListOf::from_vec(kept),
        })
    }

    fn changes(&self) -> u64 {
        self.made
    }
}
