// The items of a text section.
ghost use Rattle.std.specs.Prelude.{◌≡◌, ◌<◌, ◌^◌, length};
ghost use Rattle.std.specs.Option.{option_map};
ghost use Rattle.gg_base.specs.declared.size.Size.TheVariants.{Word};
ghost use Rattle.vax_image_reading.specs.Fronts.{field_front};
ghost use Rattle.vax_image_reading.specs.Items.{is_end, instr_item, mask_item, signed_item, item_front, items_front};
ghost use Rattle.vax_image_reading.specs.Decoding.{items_of};
ghost use Rattle.vax_image_reading.specs.Views.{view, GivesItem, GivesItems};

use crate::cursor::Cursor;
use crate::fault::DecodeFault;
use crate::fields::{behind, word_at};
use crate::instr::read_instr;
use gg_base::Name;
use std::alloc::Global;
use vax_core::CodeItem;
use vax_image_format::{Mark, Ref, Sign};

// An instruction, whatever marks are left.
fn instr_item<'a>(
    alloc: Global,
    marks: &'a [Mark],
    cursor: Cursor<'a>,
) -> Result<(CodeItem, &'a [Mark], Cursor<'a>), DecodeFault>
    ensures { GivesItem result (instr_item marks.now (view cursor.entry)) }
{
    let (instr, rest) = read_instr(alloc, cursor)?;
    Ok((CodeItem::Instr(instr), marks, rest))
}

// The 16 bits of an entry mask.
#[tactic(auto, unfolding(crate::specs::Fronts::field_front))]
fn mask(cursor: Cursor<'_>) -> Option<(u16, Cursor<'_>)>
    ensures { field_front Word (view cursor.entry) ≡ option_map (λ x. (x.0, view x.1)) result }
{
    if cursor.bytes.len() < 2 {
        return None;
    }
    Some((word_at(cursor.bytes, 0), behind(cursor, 2)))
}

fn mask_item<'a>(
    marks: &'a [Mark],
    cursor: Cursor<'a>,
) -> Result<(CodeItem, &'a [Mark], Cursor<'a>), DecodeFault>
    ensures { GivesItem result (mask_item marks.now (view cursor.entry)) }
{
    let Some((mask, rest)) = mask(cursor) else {
        return Err(DecodeFault::NotImage);
    };
    Ok((CodeItem::Mask(mask), marks, rest))
}

// The item of a mark, with the marks behind it.
fn signed_item<'a>(
    alloc: Global,
    sign: &Sign,
    marks: &'a [Mark],
    cursor: Cursor<'a>,
) -> Result<(CodeItem, &'a [Mark], Cursor<'a>), DecodeFault>
    ensures { GivesItem result (signed_item sign.now marks.now (view cursor.entry)) }
{
    match sign {
        Sign::Label(name) => {
            let name = Name::copy_of(alloc, name.as_slice())?;
            Ok((CodeItem::Label(name), marks, cursor))
        }
        Sign::Globl(name) => {
            let name = Name::copy_of(alloc, name.as_slice())?;
            Ok((CodeItem::Globl(name), marks, cursor))
        }
        Sign::Mask => mask_item(marks, cursor),
    }
}

// Whether no mark and no byte is left.
fn is_end(marks: &[Mark], cursor: Cursor<'_>) -> bool
    ensures { result ≡ is_end marks.now (view cursor.entry) }
{
    marks.is_empty() && cursor.bytes.is_empty()
}

// The item at the front: that of the next mark where it stands here; else an instruction.
#[tactic(auto, unfolding(crate::specs::Items::item_front))]
fn read_item<'a>(
    alloc: Global,
    marks: &'a [Mark],
    cursor: Cursor<'a>,
) -> Result<(CodeItem, &'a [Mark], Cursor<'a>), DecodeFault>
    ensures { GivesItem result (item_front marks.now (view cursor.entry)) }
{
    match marks {
        [first, rest @ ..] if u64::from(first.place) == cursor.place => {
            signed_item(alloc, &first.sign, rest, cursor)
        }
        _ => instr_item(alloc, marks, cursor),
    }
}

// Fewer items than a number, up to the end of marks and bytes.
#[tactic(auto, using(crate::proofs::ItemLaws::item_steps))]
fn items_within<'a>(
    alloc: Global,
    most: usize,
    marks: &'a [Mark],
    cursor: Cursor<'a>,
) -> Result<Vec<CodeItem>, DecodeFault>
    ensures { GivesItems result (items_front most marks.now (view cursor.entry)) }
{
    let mut items = Vec::new(alloc);
    let mut due = marks;
    let mut rest = cursor;
    let mut left = most;
    while left > 0 {
        if is_end(due, rest) {
            return Ok(items);
        }
        let (item, others, after) = read_item(alloc, due, rest)?;
        items.push(item)?;
        due = others;
        rest = after;
        left -= 1;
    }
    Err(DecodeFault::NotImage)
}

/// The items of a text section with its marks and refs. Each has a mark or a byte, so there are no more than these.
#[tactic(auto, using(crate::proofs::ItemLaws::one_more))]
pub fn read_items(
    alloc: Global,
    text: &[u8],
    marks: &[Mark],
    refs: &[Ref],
) -> Result<Vec<CodeItem>, DecodeFault>
    requires { length text.now < 2 ^ 32 }
    ensures { GivesItems result (items_of text.now marks.now refs.now) }
{
    let whole = Cursor {
        place: 0,
        bytes: text,
        refs,
    };
    items_within(alloc, marks.len() + text.len() + 1, marks, whole)
}
