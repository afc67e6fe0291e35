// Fields at the front of what is left of a text section.
ghost use Rattle.std.specs.Prelude.{◌≡◌, ◌+◌, ◌≤◌, length, IfOk};
ghost use Rattle.gg_base.specs.declared.size.Size.TheVariants.{Word};
ghost use Rattle.gg_base.specs.LittleEndian.{number_in};
ghost use Rattle.std.specs.Option.{option_map, option_copied};
ghost use Rattle.vax_image_reading.specs.Fronts.{behind, field_front, ref_at, behind_ref, held_front, held_addr, signed};
ghost use Rattle.vax_image_reading.specs.Views.{view, held_view};

use crate::cursor::Cursor;
use gg_base::little_endian::number_in;
use gg_base::w32::{sext8, sext16};
use gg_base::{Name, Size};
use std::alloc::{AllocError, Global};
use vax_core::Addr;
use vax_image_format::Ref;

/// A number in a field, the address that its ref gives, if it has one, and what is left behind it.
#[derive(Clone, Copy)]
pub struct Held<'a> {
    pub number: u32,
    pub addr: Option<&'a Addr>,
    pub rest: Cursor<'a>,
}

/// What is left behind so many bytes.
pub fn behind(cursor: Cursor<'_>, count: usize) -> Cursor<'_>
    requires { count ≤ length cursor.bytes.now }
    ensures { view result ≡ behind count (view cursor.entry) }
{
    Cursor {
        place: cursor.place + count as u64,
        bytes: &cursor.bytes[count..],
        refs: cursor.refs,
    }
}

/// The 16 bits at a place of some bytes.
pub fn word_at(bytes: &[u8], at: usize) -> u16
    requires { at + 2 ≤ length bytes.now }
    ensures { result ≡ number_in Word bytes.now at }
{
    u16::from_le_bytes([bytes[at], bytes[at + 1]])
}

/// The number in a field of this size.
#[tactic(auto, unfolding(crate::specs::Fronts::field_front))]
pub fn read_field(cursor: Cursor<'_>, size: Size) -> Option<(u32, Cursor<'_>)>
    ensures { field_front size (view cursor.entry) ≡ option_map (λ x. (x.0, view x.1)) result }
{
    let count = size.bytes() as usize;
    if cursor.bytes.len() < count {
        return None;
    }
    Some((number_in(size, cursor.bytes, 0), behind(cursor, count)))
}

/// What the next ref says of the field at a place, if it is this field's.
pub fn ref_at(place: u64, refs: &[Ref]) -> Option<&Addr>
    ensures { option_copied result ≡ ref_at place refs.now }
{
    match refs {
        [] => None,
        [first, ..] => {
            if u64::from(first.place) == place {
                Some(&first.addr)
            } else {
                None
            }
        }
    }
}

fn behind_ref(place: u64, refs: &[Ref]) -> &[Ref]
    ensures { result.now ≡ behind_ref place refs.now }
{
    match refs {
        [] => refs,
        [first, rest @ ..] => if u64::from(first.place) == place {
            rest
        } else {
            refs
        },
    }
}

/// The number in a field, with its ref.
#[tactic(auto, unfolding(crate::specs::Fronts::held_front))]
pub fn read_held(cursor: Cursor<'_>, size: Size) -> Option<Held<'_>>
    ensures { held_front size (view cursor.entry) ≡ option_map held_view result }
{
    let (number, rest) = read_field(cursor, size)?;
    Some(Held {
        number,
        addr: ref_at(cursor.place, cursor.refs),
        rest: Cursor {
            place: rest.place,
            bytes: rest.bytes,
            refs: behind_ref(cursor.place, cursor.refs),
        },
    })
}

/// The address that a ref gives, or the number.
pub fn held_addr(alloc: Global, addr: Option<&Addr>, number: u32) -> Result<Addr, AllocError>
    ensures { IfOk result (λ a. a ≡ held_addr (option_copied addr.entry) number) }
{
    let Some(addr) = addr else {
        return Ok(Addr {
            name: None,
            offset: number,
        });
    };
    let Some(name) = &addr.name else {
        return Ok(Addr {
            name: None,
            offset: addr.offset,
        });
    };
    Ok(Addr {
        name: Some(Name::copy_of(alloc, name.as_slice())?),
        offset: addr.offset,
    })
}

/// The number of a field with its sign copied.
pub fn signed(size: Size, number: u32) -> u32
    ensures { result ≡ signed size number }
{
    match size {
        Size::Byte => sext8(number),
        Size::Word => sext16(number),
        Size::Long => number,
    }
}
