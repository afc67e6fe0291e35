// The data area of a program.
ghost use Rattle.std.specs.Prelude.{◌≡◌, ◌≤◌, ◌++◌, IfOk, OnOk, length};
ghost use Rattle.std.specs.List.{All};
ghost use Rattle.gg_base.specs.declared.limits.TheConstants.{AREA_LIMIT};
ghost use Rattle.vax_core.specs.declared.code.AreaItem.TheVariants as areas;
ghost use Rattle.gg_compile_law.specs.Spelling.{power_of, block_of, blocks_of, area_of};

use crate::spelling::spell;
use gg_base::{Name, NoMemory};
use std::alloc::Global;
use tree_core::Object;
use vax_core::{AreaItem, AreaItems};

// 2 to this power is the alignment.
fn power_of(align: u32) -> u8
    ensures { result ≡ power_of align }
{
    if align == 1 {
        0
    } else if align == 2 {
        1
    } else {
        2
    }
}

fn label_item(alloc: Global, o: &Object) -> Result<AreaItem, NoMemory>
    ensures { IfOk result (λ i. i ≡ areas.Label o.now.label) }
{
    let label = Vec::from_slice(alloc, o.label.as_slice())?;
    Ok(AreaItem::Label(Name::from_vec(label)))
}

// Puts an object's block behind others.
#[tactic(auto, using(crate::proofs::Steps::block_is))]
fn put_block(
    alloc: Global,
    objects: &[Object],
    o: &Object,
    items: &mut Vec<AreaItem>,
) -> Result<(), NoMemory>
    requires { length o.now.bytes ≤ AREA_LIMIT }
    ensures { OnOk result (items.new.items ≡ items.old.items ++ block_of objects.now o.now) }
{
    items.push(AreaItem::Align(power_of(o.align)))?;
    items.push(label_item(alloc, o)?)?;
    spell(alloc, objects, o, items)
}

/// The data area of these objects: each one's alignment, its label, and its bytes from the front. Of the bytes each
/// link that comes in its turn is a `.long` of the linked object's label, each longest run of zeros a `.space`, and
/// each other byte a `.byte`.
pub fn area_items(alloc: Global, objects: &[Object]) -> Result<AreaItems, NoMemory>
    requires { All (λ o. length o.bytes ≤ AREA_LIMIT) objects.now }
    ensures { IfOk result (λ a. a ≡ area_of objects.now) }
{
    let mut items = Vec::new(alloc);
    for o in objects {
        put_block(alloc, objects, o, &mut items)?;
    }
    Ok(AreaItems::from_vec(items))
}
