// The bytes of an image.
ghost use Rattle.std.specs.Prelude.{◌≡◌, ◌<◌, ◌≤◌, ◌^◌, ◌++◌, true, length, OnOk, IfOk};
ghost use Rattle.std.specs.List.{list_all, flat_map};
ghost use Rattle.vax_core.specs.Valid.{is_area_item};
ghost use Rattle.vax_image_format.specs.Sections.{name_bytes, ref_bytes, area_bytes};
ghost use Rattle.vax_image_format.specs.Image.{counted};
ghost use Rattle.vax_image_writing.specs.Texts.{name_length, AreNamed, image_of};

use crate::bytes::{put_name, put_number};
use crate::items::Text;
use gg_base::{Name, Size};
use std::alloc::{AllocError, Global};
use vax_core::AreaItem;
use vax_image_format::Ref;

// Appends a name behind its length; one that is missing has no bytes.
fn put_optional_name(bytes: &mut Vec<u8>, name: &Option<Name>) -> Result<(), AllocError>
    requires { name_length name.now ≤ 64 }
    ensures { OnOk result (bytes.new.items ≡ bytes.old.items ++ name_bytes name.now) }
{
    match name {
        None => {
            bytes.push(0)?;
            Ok(())
        }
        Some(name) => put_name(bytes, name.as_slice()),
    }
}

// Appends a ref.
fn put_ref(bytes: &mut Vec<u8>, r: &Ref) -> Result<(), AllocError>
    requires { name_length r.now.addr.name ≤ 64 }
    ensures { OnOk result (bytes.new.items ≡ bytes.old.items ++ ref_bytes r.now) }
{
    put_number(bytes, Size::Long, r.place)?;
    put_optional_name(bytes, &r.addr.name)?;
    put_number(bytes, Size::Long, r.addr.offset)
}

#[tactic(auto, using(crate::proofs::ImageLaws::part_step))]
fn put_refs(bytes: &mut Vec<u8>, refs: &[Ref]) -> Result<(), AllocError>
    requires { AreNamed refs.now }
    ensures { OnOk result (bytes.new.items ≡ bytes.old.items ++ flat_map ref_bytes refs.now) }
{
    let mut left = refs;
    while let [first, others @ ..] = left {
        put_ref(bytes, first)?;
        left = others;
    }
    Ok(())
}

// Appends an item of the data area.
#[tactic(auto, using(crate::proofs::AreaLaws::name_short, crate::proofs::AreaLaws::addr_short))]
fn put_area_item(bytes: &mut Vec<u8>, item: &AreaItem) -> Result<(), AllocError>
    requires { is_area_item item.now ≡ true }
    ensures { OnOk result (bytes.new.items ≡ bytes.old.items ++ area_bytes item.now) }
{
    match item {
        AreaItem::Label(name) => {
            bytes.push(0)?;
            put_name(bytes, name.as_slice())
        }
        AreaItem::Globl(name) => {
            bytes.push(1)?;
            put_name(bytes, name.as_slice())
        }
        AreaItem::Align(power) => {
            bytes.extend_from_slice(&[2, *power])?;
            Ok(())
        }
        AreaItem::Byte(number) => {
            bytes.extend_from_slice(&[3, *number])?;
            Ok(())
        }
        AreaItem::Word(number) => {
            bytes.push(4)?;
            put_number(bytes, Size::Word, u32::from(*number))
        }
        AreaItem::Long(a) => {
            bytes.push(5)?;
            put_number(bytes, Size::Long, a.offset)?;
            put_optional_name(bytes, &a.name)
        }
        AreaItem::Space(count) => {
            bytes.push(6)?;
            put_number(bytes, Size::Long, *count)
        }
    }
}

#[tactic(auto, using(crate::proofs::ImageLaws::part_step))]
fn put_area(bytes: &mut Vec<u8>, area: &[AreaItem]) -> Result<(), AllocError>
    requires { list_all is_area_item area.now ≡ true }
    ensures { OnOk result (bytes.new.items ≡ bytes.old.items ++ flat_map area_bytes area.now) }
{
    let mut left = area;
    while let [first, others @ ..] = left {
        put_area_item(bytes, first)?;
        left = others;
    }
    Ok(())
}

// Appends bytes behind a count of what they are.
fn put_counted(bytes: &mut Vec<u8>, count: u32, parts: &[u8]) -> Result<(), AllocError>
    ensures { OnOk result (bytes.new.items ≡ bytes.old.items ++ counted count parts.now) }
{
    put_number(bytes, Size::Long, count)?;
    bytes.extend_from_slice(parts)?;
    Ok(())
}

/// The image with this text, so many marks and this data area.
#[tactic(auto, using(crate::proofs::ImageLaws::joined))]
pub fn image_of(
    alloc: Global,
    text: &Text,
    marks: u32,
    area: &[AreaItem],
) -> Result<Vec<u8>, AllocError>
    requires short { length text.now.section.bytes.items < 2 ^ 32 }
    requires few { length text.now.section.refs.items < 2 ^ 32 }
    requires named { AreNamed text.now.section.refs.items }
    requires small { length area.now < 2 ^ 32 }
    requires valid { list_all is_area_item area.now ≡ true }
    ensures { IfOk result (λ bytes. bytes.items ≡ image_of text.now marks area.now) }
{
    let mut bytes = b"GGI1".to_vec(alloc)?;
    let section = &text.section;
    put_counted(&mut bytes, section.bytes.len() as u32, &section.bytes)?;
    put_counted(&mut bytes, marks, &text.marks)?;
    put_number(&mut bytes, Size::Long, section.refs.len() as u32)?;
    put_refs(&mut bytes, &section.refs)?;
    put_number(&mut bytes, Size::Long, area.len() as u32)?;
    put_area(&mut bytes, area)?;
    Ok(bytes)
}
