// Whether a data area is small enough.
ghost use Rattle.std.specs.Prelude.{◌≡◌, ◌≤◌, true, nat_le};
ghost use Rattle.std.specs.List.{list_all};
ghost use Rattle.gg_base.specs.declared.limits.TheConstants.{AREA_LIMIT};
ghost use Rattle.vax_core.specs.Valid.{is_area_item};
ghost use Rattle.vax_machine.specs.Area.{padding, size_at, area_size};

use gg_base::limits::{AREA_LIMIT, AREA_START};
use vax_core::AreaItem;

// How many bytes lie between an address and the next multiple of 2 to this power.
fn padding(power: u8, at: u32) -> u32
    requires { power ≤ 2 }
    ensures { result ≡ padding power at }
{
    let unit = match power {
        0 => 1,
        1 => 2,
        _ => 4,
    };
    (unit - at % unit) % unit
}

// How many bytes an item takes at an address.
fn size_at(item: &AreaItem, at: u32) -> u32
    requires { is_area_item item.now ≡ true }
    ensures size { result ≡ size_at item.now at }
    ensures bound { result ≤ AREA_LIMIT }
{
    match item {
        AreaItem::Label(_) | AreaItem::Globl(_) => 0,
        AreaItem::Align(power) => padding(*power, at),
        AreaItem::Byte(_) => 1,
        AreaItem::Word(_) => 2,
        AreaItem::Long(_) => 4,
        AreaItem::Space(count) => *count,
    }
}

/// Whether a data area has at most `AREA_LIMIT` bytes.
pub fn fits(items: &[AreaItem]) -> bool
    requires { list_all is_area_item items.now ≡ true }
    ensures { result ≡ nat_le (area_size items.now) AREA_LIMIT }
{
    let mut end = AREA_START;
    for item in items {
        end += size_at(item, end);
        if end > AREA_START + AREA_LIMIT {
            return false;
        }
    }
    true
}
