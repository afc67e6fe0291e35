// Whether two codes have the same items.

use gg_base::Name;
use vax_core::{CodeItem, Instr, Operand};

fn same_target(a: &Option<Name>, b: &Option<Name>) -> bool {
    match (a, b) {
        (None, None) => true,
        (Some(a), Some(b)) => a.as_slice() == b.as_slice(),
        (None, Some(_)) | (Some(_), None) => false,
    }
}

fn same_operands(a: &[Operand], b: &[Operand]) -> bool {
    a.len() == b.len() && a.iter().zip(b).all(|(a, b)| a.same(b))
}

fn same_instr(a: &Instr, b: &Instr) -> bool {
    a.op == b.op
        && same_target(&a.target, &b.target)
        && same_operands(a.operands.as_slice(), b.operands.as_slice())
}

fn same_item(a: &CodeItem, b: &CodeItem) -> bool {
    match (a, b) {
        (CodeItem::Label(a), CodeItem::Label(b)) => a.as_slice() == b.as_slice(),
        (CodeItem::Globl(a), CodeItem::Globl(b)) => a.as_slice() == b.as_slice(),
        (CodeItem::Mask(a), CodeItem::Mask(b)) => a == b,
        (CodeItem::Instr(a), CodeItem::Instr(b)) => same_instr(a, b),
        _ => false,
    }
}

/// Whether these are the same items, one by one.
pub fn same_items(a: &[CodeItem], b: &[CodeItem]) -> bool {
    a.len() == b.len() && a.iter().zip(b).all(|(a, b)| same_item(a, b))
}
