// Which data areas are the same.
ghost use Rattle.std.specs.Prelude.{◌≡◌, IsTrue};

use gg_base::Name;
use vax_core::{Addr, AreaItem};

fn same_name(a: &Name, b: &Name) -> bool
    ensures { IsTrue result → a.now ≡ b.now }
{
    a.as_slice() == b.as_slice()
}

fn same_label(a: &Option<Name>, b: &Option<Name>) -> bool
    ensures { IsTrue result → a.now ≡ b.now }
{
    match (a, b) {
        (None, None) => true,
        (Some(a), Some(b)) => same_name(a, b),
        (None, Some(_)) | (Some(_), None) => false,
    }
}

fn same_address(a: &Addr, b: &Addr) -> bool
    ensures { IsTrue result → a.now ≡ b.now }
{
    a.offset == b.offset && same_label(&a.name, &b.name)
}

fn same_item(a: &AreaItem, b: &AreaItem) -> bool
    ensures { IsTrue result → a.now ≡ b.now }
{
    match (a, b) {
        (AreaItem::Label(a), AreaItem::Label(b)) => same_name(a, b),
        (AreaItem::Globl(a), AreaItem::Globl(b)) => same_name(a, b),
        (AreaItem::Align(a), AreaItem::Align(b)) => a == b,
        (AreaItem::Byte(a), AreaItem::Byte(b)) => a == b,
        (AreaItem::Word(a), AreaItem::Word(b)) => a == b,
        (AreaItem::Long(a), AreaItem::Long(b)) => same_address(a, b),
        (AreaItem::Space(a), AreaItem::Space(b)) => a == b,
        _ => false,
    }
}

/// Whether two data areas have the same items.
pub fn same_area(a: &[AreaItem], b: &[AreaItem]) -> bool
    ensures { IsTrue result → b.now ≡ a.now }
{
    if a.len() != b.len() {
        return false;
    }
    for i in 0..a.len() {
        if !same_item(&a[i], &b[i]) {
            return false;
        }
    }
    true
}
