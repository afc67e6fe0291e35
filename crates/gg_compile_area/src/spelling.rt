// The items of one object's bytes.
ghost use Rattle.std.specs.Prelude.{◌≡◌, ℕ, List, ◌+◌, ◌<◌, ◌≤◌, ◌++◌, ◌∷◌, [], IfOk, OnOk, length};
ghost use Rattle.gg_base.specs.declared.limits.TheConstants.{AREA_LIMIT};
ghost use Rattle.vax_core.specs.declared.code.AreaItem.{AreaItem};
ghost use Rattle.vax_core.specs.declared.code.AreaItem.TheVariants as areas;
ghost use Rattle.gg_compile_law.specs.Spelling.{after_zeros, by_byte, link_addr, spelled};

use gg_base::{Name, NoMemory};
use std::alloc::Global;
use tree_core::{Link, Object};
use vax_core::{Addr, AreaItem};

/// How far the bytes of an object are spelled: so many bytes of a link are still passed over, so many zeros came
/// before, and the links that are to come.
#[derive(Clone, Copy)]
pub struct Spelling<'a> {
    pub passed: u32,
    pub zeros: u32,
    pub links: &'a [Link],
}

// The zeros that came before, if there are any.
#[tactic(auto, using(crate::proofs::Steps::no_zeros, crate::proofs::Steps::some_zeros))]
fn end_zeros(items: &mut Vec<AreaItem>, zeros: u32) -> Result<(), NoMemory>
    ensures { OnOk result (items.new.items ≡ items.old.items ++ after_zeros zeros []) }
{
    if zeros != 0 {
        items.push(AreaItem::Space(zeros))?;
    }
    Ok(())
}

// `.long` of the label of the object that a link names.
fn link_item(alloc: Global, objects: &[Object], link: Link) -> Result<AreaItem, NoMemory>
    ensures { IfOk result (λ i. i ≡ areas.Long (link_addr objects.now link)) }
{
    let label = match objects.get(link.object as usize) {
        Some(o) => Vec::from_slice(alloc, o.label.as_slice())?,
        None => Vec::new(alloc),
    };
    Ok(AreaItem::Long(Addr {
        name: Some(Name::from_vec(label)),
        offset: 0,
    }))
}

// A byte that is no link's: how many zeros stand behind it.
#[tactic(auto, using(crate::proofs::Steps::zero_joins, crate::proofs::Steps::byte_ends))]
fn spell_byte(items: &mut Vec<AreaItem>, zeros: u32, b: u8) -> Result<u32, NoMemory>
    requires { zeros < AREA_LIMIT }
    ensures spells { IfOk result (λ z. (go : ℕ → List AreaItem) → items.new.items ++ go z ≡ items.old.items ++ by_byte zeros go b) }
    ensures few { IfOk result (λ z. z ≤ zeros + 1) }
{
    if b == 0 {
        return Ok(zeros + 1);
    }
    end_zeros(items, zeros)?;
    items.push(AreaItem::Byte(b))?;
    Ok(0)
}

impl<'a> Spelling<'a> {
    // The byte at an offset, which is the first of a link that comes in its turn, or one more of a link's, or one of its own.
    #[tactic(auto, using(crate::proofs::Steps::passes, crate::proofs::Steps::links, crate::proofs::Steps::goes_by))]
    fn step(
        self,
        alloc: Global,
        objects: &[Object],
        at: u32,
        b: u8,
        items: &mut Vec<AreaItem>,
    ) -> Result<Spelling<'a>, NoMemory>
        requires { self.zeros < AREA_LIMIT }
        ensures spells { IfOk result (λ r. (bs : List ℕ) →
            items.new.items ++ spelled objects.now r.passed r.zeros r.links.now (at + 1) bs
            ≡ items.old.items ++ spelled objects.now self.entry.passed self.entry.zeros self.entry.links.now at (b ∷ bs)) }
        ensures few { IfOk result (λ r. r.zeros ≤ self.entry.zeros + 1) }
    {
        if self.passed != 0 {
            return Ok(Spelling {
                passed: self.passed - 1,
                zeros: self.zeros,
                links: self.links,
            });
        }
        if let [link, rest @ ..] = self.links {
            if link.at == at {
                end_zeros(items, self.zeros)?;
                items.push(link_item(alloc, objects, *link)?)?;
                return Ok(Spelling {
                    passed: 3,
                    zeros: 0,
                    links: rest,
                });
            }
        }
        let zeros = spell_byte(items, self.zeros, b)?;
        Ok(Spelling {
            passed: 0,
            zeros,
            links: self.links,
        })
    }
}

/// Puts the items of an object's bytes behind others.
pub fn spell(
    alloc: Global,
    objects: &[Object],
    o: &Object,
    items: &mut Vec<AreaItem>,
) -> Result<(), NoMemory>
    requires { length o.now.bytes ≤ AREA_LIMIT }
    ensures { OnOk result (items.new.items ≡ items.old.items ++ spelled objects.now 0 0 o.now.links 0 o.now.bytes) }
{
    let mut state = Spelling {
        passed: 0,
        zeros: 0,
        links: o.links.as_slice(),
    };
    for (at, b) in o.bytes.as_slice().iter().enumerate() {
        state = state.step(alloc, objects, at as u32, *b, items)?;
    }
    end_zeros(items, state.zeros)
}
