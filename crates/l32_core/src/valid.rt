// Which codes an assembly text can be written of.
ghost use Rattle.std.specs.Prelude.{◌≡◌, true};
ghost use Rattle.std.specs.List.{list_all};
ghost use Rattle.std.specs.Option.{option_copied};
ghost use Rattle.gg_base.specs.Names.{is_name_part};
ghost use Rattle.vax_core.specs.Valid.{is_name, is_named_addr, is_addr, is_area_item};
ghost use Rattle.l32_core.specs.Valid.{is_reg, is_base, is_register, is_memory, is_number, suits, fits, is_instr, is_item, is_code};

use crate::{Base32, Code32, Instr32, Item32, Operand32, Part, Role};
use gg_base::Name;
use gg_base::limits::{AREA_LIMIT, NEED_LIMIT, TEXT_NAME_LIMIT};
use vax_core::valid::{is_name_part, is_name_start};
use vax_core::{Addr, AreaItem};

/// An offset that no sign and number can be written of behind a name.
const UNWRITABLE_OFFSET: u32 = 0x8000_0000;

/// How many general registers there are.
const REGISTERS: u8 = 12;

fn are_name_parts(bytes: &[u8]) -> bool
    ensures { result ≡ list_all is_name_part bytes.now }
{
    bytes.iter().all(|c| is_name_part(*c))
}

fn is_name(name: &Name) -> bool
    ensures { result ≡ is_name name.now }
{
    let [first, rest @ ..] = name.as_slice() else {
        return false;
    };
    is_name_start(*first) && rest.len() < TEXT_NAME_LIMIT && are_name_parts(rest)
}

fn is_named_addr(a: &Addr) -> bool
    ensures { result ≡ is_named_addr a.now.name a.now.offset }
{
    match &a.name {
        None => false,
        Some(name) => is_name(name) && a.offset != UNWRITABLE_OFFSET,
    }
}

fn is_addr(a: &Addr) -> bool
    ensures { result ≡ is_addr a.now }
{
    // A number alone is any of 32 bits.
    let _number = a.offset;
    a.name.is_none() || is_named_addr(a)
}

fn is_base(base: Base32) -> bool
    ensures { result ≡ is_base base }
{
    match base {
        Base32::A(n) => n < REGISTERS,
        Base32::Fp | Base32::Sp => true,
    }
}

fn is_register(o: &Operand32) -> bool
    ensures { result ≡ is_register o.now }
{
    match o {
        Operand32::Reg(n) => *n < REGISTERS,
        Operand32::Num(_) | Operand32::At(_, _) | Operand32::Deferred(_, _) | Operand32::Addr(_) =>
            false,
    }
}

fn is_memory(o: &Operand32) -> bool
    ensures { result ≡ is_memory o.now }
{
    match o {
        Operand32::At(n, base) | Operand32::Deferred(n, base) => {
            // Any of 32 bits.
            let _displacement = *n;
            is_base(*base)
        }
        Operand32::Addr(a) => is_named_addr(a),
        Operand32::Num(_) | Operand32::Reg(_) => false,
    }
}

fn is_number(limit: u32, o: &Operand32) -> bool
    ensures { result ≡ is_number limit o.now }
{
    match o {
        Operand32::Num(n) => *n <= limit,
        Operand32::Reg(_) | Operand32::At(_, _) | Operand32::Deferred(_, _) | Operand32::Addr(_) =>
            false,
    }
}

fn suits(role: Role, o: &Operand32) -> bool
    ensures { result ≡ suits role o.now }
{
    match role {
        Role::Number => is_number(u32::MAX, o),
        Role::Words => is_number(NEED_LIMIT, o),
        Role::Count => is_number(255, o),
        Role::Destination | Role::Register => is_register(o),
        Role::Source(_) => is_register(o) || is_memory(o),
        Role::Store(_) | Role::Address => is_memory(o),
    }
}

fn fits(parts: &[Part], operands: &[Operand32], target: Option<&Name>) -> bool
    ensures { result ≡ fits parts.now operands.now (option_copied target.entry) }
{
    let [part, parts @ ..] = parts else {
        return operands.is_empty() && target.is_none();
    };
    match part {
        Part::Label => match target {
            None => false,
            Some(name) => is_name(name) && fits(parts, operands, None),
        },
        Part::Operand(role) => {
            let [operand, operands @ ..] = operands else {
                return false;
            };
            suits(*role, operand) && fits(parts, operands, target)
        }
    }
}

impl Instr32 {
    /// Whether it has the operands and the label of its mnemonic, each one that can be written there.
    pub fn valid(&self) -> bool
        ensures { result ≡ is_instr self.now }
    {
        fits(
            self.op.shape().parts,
            self.operands.as_slice(),
            self.target.as_ref(),
        )
    }
}

fn is_area_item(item: &AreaItem) -> bool
    ensures { result ≡ is_area_item item.now }
{
    match item {
        AreaItem::Label(name) | AreaItem::Globl(name) => is_name(name),
        AreaItem::Align(k) => *k <= 2,
        AreaItem::Byte(n) => {
            // Any of 8 bits.
            let _number = *n;
            true
        }
        AreaItem::Word(n) => {
            // Any of 16 bits.
            let _number = *n;
            true
        }
        AreaItem::Long(a) => is_addr(a),
        AreaItem::Space(n) => 1 <= *n && *n <= AREA_LIMIT,
    }
}

fn is_item(item: &Item32) -> bool
    ensures { result ≡ is_item item.now }
{
    match item {
        Item32::Label(name) => is_name(name),
        Item32::Instr(i) => i.valid(),
    }
}

fn are_area_items(items: &[AreaItem]) -> bool
    ensures { result ≡ list_all is_area_item items.now }
{
    items.iter().all(is_area_item)
}

fn are_items(items: &[Item32]) -> bool
    ensures { result ≡ list_all is_item items.now }
{
    items.iter().all(is_item)
}

impl Code32 {
    /// Whether an assembly text can be written of it.
    pub fn valid(&self) -> bool
        ensures { result ≡ is_code self.now }
    {
        are_area_items(self.area.as_slice()) && are_items(self.items.as_slice())
    }
}
