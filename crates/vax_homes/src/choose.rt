// Which locals of a function get a register.
ghost use Rattle.std.specs.Prelude.{◌≡◌, ◌==◌, bit_and, IfOk};
ghost use Rattle.vax_core.specs.Registers.{reg_bit};
ghost use Rattle.vax_homes.specs.Choosing.{is_home_at, is_word_at, is_long, is_value, is_fp, allows_home, spares_base, spares, all_spare};
ghost use Rattle.vax_homes.specs.Choosing.{item_spares, is_homeable, homes_of};

use bitflags::Flags;
use gg_base::{NoMemory, Size};
use std::alloc::Global;
use vax_core::{Access, Addr, Base, CodeItem, Operand, OperandKind, Reg};
use vax_frames::mask::entry_mask;

/// A local of a function, by its number, and the register that it lives in.
#[derive(Clone, Copy)]
pub struct Home {
    pub local: u32,
    pub register: Reg,
}

/// The registers that locals may live in.
pub const HOME_REGISTERS: [Reg; 6] = [Reg::R6, Reg::R7, Reg::R8, Reg::R9, Reg::R10, Reg::R11];

/// How many addresses 32 bits count.
const ADDRESS_COUNT: u64 = 0x1_0000_0000;

/// Whether this displacement from fp is that of a local's word: `-4(k+1)` for local k.
pub fn is_home_at(local: u32, a: &Addr) -> bool
    ensures { result ≡ is_home_at local a.now }
{
    a.name.is_none() && u64::from(a.offset) + 4 * (u64::from(local) + 1) == ADDRESS_COUNT
}

fn is_word_at(a: &Addr) -> bool
    ensures { result ≡ is_word_at a.now }
{
    a.name.is_none() && a.offset % 4 == 0
}

fn is_long(size: Size) -> bool
    ensures { result ≡ is_long size }
{
    match size {
        Size::Long => true,
        Size::Byte | Size::Word => false,
    }
}

// Whether the place itself is read or written, and not its address taken.
fn is_value(access: Access) -> bool
    ensures { result ≡ is_value access }
{
    match access {
        Access::Address => false,
        Access::Read | Access::Modify | Access::Write | Access::Count => true,
    }
}

// Whether a displacement from fp is none of the local's word, or that word is used as a longword and not by its address.
fn allows_home(local: u32, a: &Addr, kind: OperandKind) -> bool
    ensures { result ≡ allows_home local a.now kind }
{
    !is_home_at(local, a) || (is_long(kind.size) && is_value(kind.access))
}

pub(crate) fn is_fp(register: Reg) -> bool
    ensures { result ≡ is_fp register }
{
    register.number() == Reg::Fp.number()
}

// Whether a base lets a local live in a register; it has no index if it is plain.
fn spares_base(local: u32, kind: OperandKind, plain: bool, base: &Base) -> bool
    ensures { result ≡ spares_base local kind plain base.now }
{
    match base {
        Base::Disp(a, r) => {
            !is_fp(*r) || (plain && is_word_at(a) && allows_home(local, a, kind))
        }
        Base::DispDef(a, r) => !is_fp(*r) || is_word_at(a),
        Base::Reg(r) | Base::Def(r) | Base::Inc(r) | Base::IncDef(r) | Base::Dec(r) => !is_fp(*r),
        Base::Imm(_) | Base::Abs(_) | Base::Rel(_) | Base::RelDef(_) => true,
    }
}

fn spares(local: u32, kind: OperandKind, o: &Operand) -> bool
    ensures { result ≡ spares local kind o.now }
{
    spares_base(local, kind, o.index.is_none(), &o.base)
}

fn all_spare(local: u32, kinds: &[OperandKind], operands: &[Operand]) -> bool
    ensures { result ≡ all_spare local kinds.now operands.now }
{
    kinds
        .iter()
        .zip(operands)
        .all(|(kind, o)| spares(local, *kind, o))
}

fn item_spares(local: u32, item: &CodeItem) -> bool
    ensures { result ≡ item_spares local item.now }
{
    match item {
        CodeItem::Instr(i) => all_spare(local, i.op.shape().operands, i.operands.as_slice()),
        CodeItem::Label(_) | CodeItem::Globl(_) | CodeItem::Mask(_) => true,
    }
}

/// Whether a local may live in a register: each operand of the body that has fp as base is an unnamed `d(fp)` without
/// index or an unnamed `*d(fp)`, d a multiple of 4, and the local's own word is used as a longword and not by its address.
pub fn is_homeable(body: &[CodeItem], local: u32) -> bool
    ensures { result ≡ is_homeable body.now local }
{
    body.iter().all(|item| item_spares(local, item))
}

// Whether a register isn't in a body's entry mask.
fn is_free(mask: u16, register: Reg) -> bool
    ensures { result ≡ (bit_and mask (reg_bit register) == 0) }
{
    mask & register.set().bits() == 0
}

/// The wanted locals that may live in a register, in order, with those of r6 to r11 that the body doesn't name, in order,
/// while both last.
pub fn homes_of(alloc: Global, wanted: &[u32], body: &[CodeItem]) -> Result<Vec<Home>, NoMemory>
    ensures { IfOk result (λ homes. homes.items ≡ homes_of wanted.now body.now) }
{
    let mask = entry_mask(body);
    let locals = wanted
        .iter()
        .copied()
        .filter(|local| is_homeable(body, *local));
    let registers = HOME_REGISTERS
        .iter()
        .copied()
        .filter(|register| is_free(mask, *register));
    let homes = locals
        .zip(registers)
        .map(|(local, register)| Home { local, register })
        .collect(alloc)?;
    Ok(homes)
}
