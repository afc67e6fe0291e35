// The data area: bytes from the address `AREA_START` on, little-endian, unaligned accesses allowed.

ghost use Rattle.std.specs.Prelude.{◌≡◌, ◌++◌, IfOk, OnOk, unwrap_or, replicate};
ghost use Rattle.tree_core.specs.Area.{is_inside, fetched, stored, bytes_from, opening};

use crate::program::Object;
use gg_base::limits::AREA_START;
use gg_base::little_endian::{number_in, put_number};
use gg_base::{NoMemory, Size};
use std::alloc::Global;

/// The data area as a run finds it: each object's bytes at its address, and 0 between them.
pub fn opening(alloc: Global, objects: &[Object]) -> Result<Vec<u8>, NoMemory>
    ensures { IfOk result (λ area. area.items ≡ opening objects.now) }
{
    let mut area = Vec::new(alloc);
    let mut at = u64::from(AREA_START);
    for object in objects {
        fill(&mut area, u64::from(object.address).saturating_sub(at))?;
        area.extend_from_slice(object.bytes.as_slice())?;
        at = u64::from(object.address) + u64::from(object.size);
    }
    Ok(area)
}

fn fill(area: &mut Vec<u8>, count: u64) -> Result<(), NoMemory>
    ensures { OnOk result (area.new.items ≡ area.old.items ++ replicate count 0) }
{
    let length = area.len().checked_add(count as usize).ok_or(NoMemory)?;
    area.resize(length, 0)?;
    Ok(())
}

/// The number at an address, at a size. None where a byte of it lies outside the area.
pub fn fetch(area: &[u8], size: Size, address: u32) -> Option<u32>
    ensures { result ≡ fetched size area.now address }
{
    if is_inside(area, size, address) {
        Some(number_in(size, area, (address - AREA_START) as usize))
    } else {
        None
    }
}

/// Puts the low part of a number at an address, at a size. False, with the area unchanged, where a
/// byte of it lies outside the area.
pub fn store(area: &mut [u8], size: Size, address: u32, value: u32) -> bool
    ensures inside { result ≡ is_inside size area.old address }
    ensures stored { area.new ≡ unwrap_or (stored size area.old address value) area.old }
{
    if is_inside(area, size, address) {
        put_number(size, area, (address - AREA_START) as usize, value);
        true
    } else {
        false
    }
}

fn is_inside(area: &[u8], size: Size, address: u32) -> bool
    ensures { result ≡ is_inside size area.now address }
{
    let end = u64::from(address) + u64::from(size.bytes());
    AREA_START <= address && end <= u64::from(AREA_START) + area.len() as u64
}
