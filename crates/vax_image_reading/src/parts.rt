// The parts of an image that stand in counted lists: marks, refs and items of the data area.
ghost use Rattle.std.specs.Prelude.{◌≡◌, length, IfSome};
ghost use Rattle.std.specs.Option.{option_map};
ghost use Rattle.gg_base.specs.declared.size.Size.TheVariants.{Byte, Word, Long};
ghost use Rattle.vax_image_reading.specs.Reading.{number_front, bytes_front, name_front, some_name, sign_of, mark_front, ref_front};
ghost use Rattle.vax_image_reading.specs.Reading.{long_item, area_of, area_front, counted_front};
ghost use Rattle.vax_image_reading.specs.Views.{GivesPart, GivesParts};

use crate::fault::DecodeFault;
use crate::fields::word_at;
use gg_base::little_endian::number_in;
use gg_base::{Name, Size};
use std::alloc::Global;
use vax_core::{Addr, AreaItem};
use vax_image_format::{Mark, Ref, Sign};

#[tactic(auto, unfolding(crate::specs::Fronts::field_front))]
fn byte(bytes: &[u8]) -> Result<(u8, &[u8]), DecodeFault>
    ensures { GivesPart result (number_front Byte bytes.now) }
{
    if bytes.len() < 1 {
        return Err(DecodeFault::NotImage);
    }
    Ok((bytes[0], &bytes[1..]))
}

#[tactic(auto, unfolding(crate::specs::Fronts::field_front))]
fn word(bytes: &[u8]) -> Result<(u16, &[u8]), DecodeFault>
    ensures { GivesPart result (number_front Word bytes.now) }
{
    if bytes.len() < 2 {
        return Err(DecodeFault::NotImage);
    }
    Ok((word_at(bytes, 0), &bytes[2..]))
}

/// The longword at the front.
#[tactic(auto, unfolding(crate::specs::Fronts::field_front))]
pub fn long(bytes: &[u8]) -> Result<(u32, &[u8]), DecodeFault>
    ensures { GivesPart result (number_front Long bytes.now) }
{
    if bytes.len() < 4 {
        return Err(DecodeFault::NotImage);
    }
    Ok((number_in(Size::Long, bytes, 0), &bytes[4..]))
}

/// So many bytes at the front.
pub fn taken(count: usize, bytes: &[u8]) -> Option<(&[u8], &[u8])>
    ensures is { bytes_front (count, bytes.now) ≡ option_map (λ x. (x.0.now, x.1.now)) result }
    ensures long { IfSome result (λ x. length x.0.now ≡ count) }
{
    if bytes.len() < count {
        return None;
    }
    Some((&bytes[..count], &bytes[count..]))
}

// A name behind its length.
fn name(alloc: Global, bytes: &[u8]) -> Result<(Name, &[u8]), DecodeFault>
    ensures { GivesPart result (name_front bytes.now) }
{
    let (count, rest) = byte(bytes)?;
    let Some((name, rest)) = taken(usize::from(count), rest) else {
        return Err(DecodeFault::NotImage);
    };
    Ok((Name::copy_of(alloc, name)?, rest))
}

// A name without bytes is missing.
fn some_name(name: Name) -> Option<Name>
    ensures { result ≡ some_name name }
{
    if name.as_slice().is_empty() {
        None
    } else {
        Some(name)
    }
}

// What a mark says, by its kind.
fn sign(alloc: Global, kind: u8, bytes: &[u8]) -> Result<(Sign, &[u8]), DecodeFault>
    ensures { GivesPart result (sign_of (kind, bytes.now)) }
{
    match kind {
        0 => {
            let (name, rest) = name(alloc, bytes)?;
            Ok((Sign::Label(name), rest))
        }
        1 => {
            let (name, rest) = name(alloc, bytes)?;
            Ok((Sign::Globl(name), rest))
        }
        2 => Ok((Sign::Mask, bytes)),
        _ => Err(DecodeFault::NotImage),
    }
}

// A number or an address of the data area.
fn long_item(alloc: Global, bytes: &[u8]) -> Result<(AreaItem, &[u8]), DecodeFault>
    ensures { GivesPart result (long_item bytes.now) }
{
    let (offset, rest) = long(bytes)?;
    let (name, rest) = name(alloc, rest)?;
    let name = some_name(name);
    Ok((AreaItem::Long(Addr { name, offset }), rest))
}

// An item of the data area, by its kind.
fn area_item(alloc: Global, kind: u8, bytes: &[u8]) -> Result<(AreaItem, &[u8]), DecodeFault>
    ensures { GivesPart result (area_of (kind, bytes.now)) }
{
    match kind {
        0 => {
            let (name, rest) = name(alloc, bytes)?;
            Ok((AreaItem::Label(name), rest))
        }
        1 => {
            let (name, rest) = name(alloc, bytes)?;
            Ok((AreaItem::Globl(name), rest))
        }
        2 => {
            let (power, rest) = byte(bytes)?;
            Ok((AreaItem::Align(power), rest))
        }
        3 => {
            let (number, rest) = byte(bytes)?;
            Ok((AreaItem::Byte(number), rest))
        }
        4 => {
            let (number, rest) = word(bytes)?;
            Ok((AreaItem::Word(number), rest))
        }
        5 => long_item(alloc, bytes),
        6 => {
            let (count, rest) = long(bytes)?;
            Ok((AreaItem::Space(count), rest))
        }
        _ => Err(DecodeFault::NotImage),
    }
}

/// A part of an image that stands in a counted list.
pub trait Part: Drop + Sized {
    ghost use Rattle.std.specs.Prelude.{ℕ, List, Option};

    ghost front: { List ℕ → Option (Self × List ℕ) };

    /// The part at the front, with what is left behind it.
    fn read(alloc: Global, bytes: &[u8]) -> Result<(Self, &[u8]), DecodeFault>
        ensures { GivesPart result (front bytes.now) };
}

impl Part for Mark {
    ghost front = { mark_front };

    #[tactic(auto, unfolding(crate::specs::Reading::mark_front))]
    fn read(alloc: Global, bytes: &[u8]) -> Result<(Self, &[u8]), DecodeFault> {
        let (place, rest) = long(bytes)?;
        let (kind, rest) = byte(rest)?;
        let (sign, rest) = sign(alloc, kind, rest)?;
        Ok((Mark { place, sign }, rest))
    }
}

impl Part for Ref {
    ghost front = { ref_front };

    #[tactic(auto, unfolding(crate::specs::Reading::ref_front))]
    fn read(alloc: Global, bytes: &[u8]) -> Result<(Self, &[u8]), DecodeFault> {
        let (place, rest) = long(bytes)?;
        let (name, rest) = name(alloc, rest)?;
        let name = some_name(name);
        let (offset, rest) = long(rest)?;
        let addr = Addr { name, offset };
        Ok((Ref { place, addr }, rest))
    }
}

impl Part for AreaItem {
    ghost front = { area_front };

    #[tactic(auto, unfolding(crate::specs::Reading::area_front))]
    fn read(alloc: Global, bytes: &[u8]) -> Result<(Self, &[u8]), DecodeFault> {
        let (kind, rest) = byte(bytes)?;
        area_item(alloc, kind, rest)
    }
}

/// The parts of a list behind their count. Memory is taken for those alone whose bytes are there.
#[tactic(auto, using(crate::proofs::PartLaws::part_steps))]
pub fn read_list<P: Part>(alloc: Global, bytes: &[u8]) -> Result<(Vec<P>, &[u8]), DecodeFault>
    ensures { GivesParts result (counted_front P.front bytes.now) }
{
    let (count, rest) = long(bytes)?;
    let mut parts = Vec::new(alloc);
    let mut rest = rest;
    let mut left = count;
    while left > 0 {
        let (part, after) = P::read(alloc, rest)?;
        parts.push(part)?;
        rest = after;
        left -= 1;
    }
    Ok((parts, rest))
}
