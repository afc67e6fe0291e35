// Which codes an assembly text can be written of.
ghost use Rattle.std.specs.Prelude.{◌≡◌};
ghost use Rattle.std.specs.List.{list_all};
ghost use Rattle.gg_base.specs.Names.{is_name_part};
ghost use Rattle.vax_core.specs.Valid.{is_name_start, is_name, is_named_addr, is_addr, is_base, is_memory, is_place};
ghost use Rattle.vax_core.specs.Valid.{is_count, allows, may_index, is_operand, are_operands, is_target, is_instr, is_area_item};
ghost use Rattle.vax_core.specs.Valid.{is_code_item, is_code};

use crate::{Access, Addr, AreaItem, Base, Code, CodeItem, Instr, Operand, OperandKind, Reg};
use gg_base::Name;
use gg_base::limits::{AREA_LIMIT, TEXT_NAME_LIMIT};

/// An offset that no sign and number can be written of behind a name.
const UNWRITABLE_OFFSET: u32 = 0x8000_0000;

/// Whether a name in an assembly text may begin with the byte.
pub fn is_name_start(c: u8) -> bool
    ensures { result ≡ is_name_start c }
{
    c == b'_' || c == b'L' || c == b'S' || c == b'T'
}

/// Whether the byte may stand in a name behind the first.
pub fn is_name_part(c: u8) -> bool
    ensures { result ≡ is_name_part c }
{
    c.is_ascii_alphanumeric() || c == b'_'
}

fn are_name_parts(bytes: &[u8]) -> bool
    ensures { result ≡ list_all is_name_part bytes.now }
{
    bytes.iter().all(|c| is_name_part(*c))
}

/// Whether a name can stand in an assembly text: its first byte begins one, the others may stand behind it, and it is no longer than a line takes.
pub fn is_name(name: &Name) -> bool
    ensures { result ≡ is_name name.now }
{
    let [first, rest @ ..] = name.as_slice() else {
        return false;
    };
    is_name_start(*first) && rest.len() < TEXT_NAME_LIMIT && are_name_parts(rest)
}

/// Whether an address is a name with an offset that can be written behind it.
pub fn is_named_addr(a: &Addr) -> bool
    ensures { result ≡ is_named_addr a.now.name a.now.offset }
{
    match &a.name {
        None => false,
        Some(name) => is_name(name) && a.offset != UNWRITABLE_OFFSET,
    }
}

/// Whether an address is a number alone, or a name with an offset that can be written behind it.
pub fn is_addr(a: &Addr) -> bool
    ensures { result ≡ is_addr a.now }
{
    // A number alone is any of 32 bits.
    let _number = a.offset;
    a.name.is_none() || is_named_addr(a)
}

fn is_base(base: &Base) -> bool
    ensures { result ≡ is_base base.now }
{
    match base {
        Base::Imm(a) | Base::Disp(a, _) | Base::DispDef(a, _) => is_addr(a),
        Base::Rel(a) | Base::RelDef(a) => is_named_addr(a),
        Base::Abs(n) => {
            // Any of 32 bits.
            let _address = *n;
            true
        }
        Base::Reg(_) | Base::Def(_) | Base::Inc(_) | Base::IncDef(_) | Base::Dec(_) => true,
    }
}

fn is_memory(base: &Base) -> bool
    ensures { result ≡ is_memory base.now }
{
    !matches!(base, Base::Imm(_) | Base::Reg(_))
}

fn is_place(base: &Base) -> bool
    ensures { result ≡ is_place base.now }
{
    !matches!(base, Base::Imm(_))
}

fn is_count(base: &Base) -> bool
    ensures { result ≡ is_count base.now }
{
    match base {
        Base::Imm(a) => a.name.is_none() && a.offset <= 255,
        _ => false,
    }
}

fn allows(access: Access, base: &Base) -> bool
    ensures { result ≡ allows access base.now }
{
    match access {
        Access::Read => true,
        Access::Modify | Access::Write => is_place(base),
        Access::Address => is_memory(base),
        Access::Count => is_count(base),
    }
}

fn may_index(base: &Base, x: Reg) -> bool
    ensures { result ≡ may_index base.now x }
{
    match base {
        Base::Imm(_) | Base::Reg(_) => false,
        Base::Inc(r) | Base::IncDef(r) | Base::Dec(r) => r.number() != x.number(),
        Base::Def(_)
        | Base::Disp(_, _)
        | Base::DispDef(_, _)
        | Base::Abs(_)
        | Base::Rel(_)
        | Base::RelDef(_) => true,
    }
}

fn is_operand(kind: OperandKind, o: &Operand) -> bool
    ensures { result ≡ is_operand kind o.now }
{
    let index_fits = match o.index {
        None => true,
        Some(x) => may_index(&o.base, x),
    };
    allows(kind.access, &o.base) && is_base(&o.base) && index_fits
}

fn are_operands(kinds: &[OperandKind], operands: &[Operand]) -> bool
    ensures { result ≡ are_operands kinds.now operands.now }
{
    kinds.len() == operands.len()
        && kinds
            .iter()
            .zip(operands)
            .all(|(kind, o)| is_operand(*kind, o))
}

fn is_target(wanted: bool, target: &Option<Name>) -> bool
    ensures { result ≡ is_target wanted target.now }
{
    match target {
        None => !wanted,
        Some(name) => wanted && is_name(name),
    }
}

impl Instr {
    /// Whether it has the operands and the label of its mnemonic, each one that can be written there.
    pub fn valid(&self) -> bool
        ensures { result ≡ is_instr self.now }
    {
        let shape = self.op.shape();
        are_operands(shape.operands, self.operands.as_slice())
            && is_target(shape.target, &self.target)
    }
}

/// Whether a line of the data area can be written and read.
pub fn is_area_item(item: &AreaItem) -> bool
    ensures { result ≡ is_area_item item.now }
{
    match item {
        AreaItem::Label(name) | AreaItem::Globl(name) => is_name(name),
        AreaItem::Align(k) => *k <= 2,
        AreaItem::Byte(n) => {
            // Any of 8 bits.
            let _number = *n;
            true
        }
        AreaItem::Word(n) => {
            // Any of 16 bits.
            let _number = *n;
            true
        }
        AreaItem::Long(a) => is_addr(a),
        AreaItem::Space(n) => 1 <= *n && *n <= AREA_LIMIT,
    }
}

fn is_code_item(item: &CodeItem) -> bool
    ensures { result ≡ is_code_item item.now }
{
    match item {
        CodeItem::Label(name) | CodeItem::Globl(name) => is_name(name),
        CodeItem::Mask(mask) => *mask <= 4095,
        CodeItem::Instr(i) => i.valid(),
    }
}

fn are_area_items(items: &[AreaItem]) -> bool
    ensures { result ≡ list_all is_area_item items.now }
{
    items.iter().all(is_area_item)
}

fn are_code_items(items: &[CodeItem]) -> bool
    ensures { result ≡ list_all is_code_item items.now }
{
    items.iter().all(is_code_item)
}

impl Code {
    /// Whether an assembly text can be written of it.
    pub fn valid(&self) -> bool
        ensures { result ≡ is_code self.now }
    {
        are_area_items(self.area.as_slice()) && are_code_items(self.items.as_slice())
    }
}
