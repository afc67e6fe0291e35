// Fields and operands behind what stands in a text section.
ghost use Rattle.std.specs.Prelude.{◌≡◌, ◌+◌, ◌<◌, ◌≤◌, ◌^◌, ◌++◌, [], ◌∷◌, length, OnOk, IfOk, Some};
ghost use Rattle.vax_image_format.specs.Specifiers.{field, ref, mode, disp_mode, addr_field, addr_refs, imm_bytes, imm_refs, disp_size};
ghost use Rattle.vax_image_format.specs.Specifiers.{disp_bytes, base_bytes, base_refs, operand_bytes, operand_refs};
ghost use Rattle.gg_base.specs.Sizes.{low};
ghost use Rattle.vax_image_format.specs.Instructions.{operands_bytes, operands_refs};
ghost use Rattle.vax_image_writing.specs.Written.{end_of, IsPut};

use crate::bytes::put_number;
use crate::section::Section;
use gg_base::w32::{sext8, sext16};
use gg_base::{Name, Size};
use std::alloc::{AllocError, Global};
use vax_core::{Addr, Base, Operand, OperandKind, Reg};
use vax_image_format::Ref;

fn copy_of(alloc: Global, addr: &Addr) -> Result<Addr, AllocError>
    ensures { IfOk result (λ a. a ≡ addr.now) }
{
    let name = match &addr.name {
        None => None,
        Some(name) => Some(Name::copy_of(alloc, name.as_slice())?),
    };
    Ok(Addr {
        name,
        offset: addr.offset,
    })
}

impl Section {
    // A byte.
    pub(crate) fn byte(&mut self, b: u8) -> Result<(), AllocError>
        ensures { OnOk result (IsPut self.old self.new (b ∷ []) []) }
    {
        self.bytes.push(b)?;
        Ok(())
    }

    // A number without a ref.
    pub(crate) fn number(&mut self, size: Size, n: u32) -> Result<(), AllocError>
        ensures { OnOk result (IsPut self.old self.new (field size n) []) }
    {
        put_number(&mut self.bytes, size, n)
    }

    // A field that has a ref.
    fn held(&mut self, alloc: Global, size: Size, n: u32, addr: &Addr) -> Result<(), AllocError>
        requires { length self.old.bytes.items < 2 ^ 32 }
        ensures { OnOk result (IsPut self.old self.new (field size n) (ref (end_of self.old) addr.now.name addr.now.offset)) }
    {
        let place = self.bytes.len() as u32;
        let addr = copy_of(alloc, addr)?;
        self.refs.push(Ref { place, addr })?;
        put_number(&mut self.bytes, size, n)
    }

    // An address in a field of a size.
    fn addr(&mut self, alloc: Global, size: Size, addr: &Addr) -> Result<(), AllocError>
        requires { length self.old.bytes.items < 2 ^ 32 }
        ensures { OnOk result (IsPut self.old self.new (addr_field size addr.now.name addr.now.offset)
            (addr_refs (end_of self.old) addr.now.name addr.now.offset)) }
    {
        match addr.name {
            None => self.number(size, addr.offset),
            Some(_) => self.held(alloc, size, 0, addr),
        }
    }

    // A byte, and behind it a number without a ref.
    #[tactic(auto, using(crate::proofs::WrittenLaws::put_behind))]
    fn byte_and_number(&mut self, first: u8, size: Size, n: u32) -> Result<(), AllocError>
        ensures { OnOk result (IsPut self.old self.new (first ∷ field size n) []) }
    {
        self.byte(first)?;
        self.number(size, n)
    }

    // A byte, and behind it a field that has a ref.
    #[tactic(auto, using(crate::proofs::WrittenLaws::held_behind))]
    fn byte_and_held(
        &mut self,
        alloc: Global,
        first: u8,
        size: Size,
        n: u32,
        addr: &Addr,
    ) -> Result<(), AllocError>
        requires { length self.old.bytes.items + 1 < 2 ^ 32 }
        ensures { OnOk result (IsPut self.old self.new (first ∷ field size n) (ref (end_of self.old + 1) addr.now.name addr.now.offset)) }
    {
        self.byte(first)?;
        self.held(alloc, size, n, addr)
    }

    // A byte, and behind it an address.
    #[tactic(auto, using(crate::proofs::WrittenLaws::addr_behind))]
    fn byte_and_addr(
        &mut self,
        alloc: Global,
        first: u8,
        size: Size,
        addr: &Addr,
    ) -> Result<(), AllocError>
        requires { length self.old.bytes.items + 1 < 2 ^ 32 }
        ensures { OnOk result (IsPut self.old self.new (first ∷ addr_field size addr.now.name addr.now.offset)
            (addr_refs (end_of self.old + 1) addr.now.name addr.now.offset)) }
    {
        self.byte(first)?;
        self.addr(alloc, size, addr)
    }

    fn immediate(&mut self, alloc: Global, size: Size, a: &Addr) -> Result<(), AllocError>
        requires { length self.old.bytes.items + 1 < 2 ^ 32 }
        ensures { OnOk result (IsPut self.old self.new (imm_bytes size a.now.name a.now.offset)
            (imm_refs (end_of self.old) size a.now.name a.now.offset)) }
    {
        match a.name {
            Some(_) => self.byte_and_held(alloc, 0x8f, size, 0, a),
            None => {
                if a.offset < 64 {
                    return self.byte(a.offset as u8);
                }
                if low(size, a.offset) == a.offset {
                    return self.byte_and_number(0x8f, size, a.offset);
                }
                self.byte_and_held(alloc, 0x8f, size, a.offset, a)
            }
        }
    }

    // A displacement from a register; of the modes with deferred memory each is one more.
    fn displacement(
        &mut self,
        alloc: Global,
        deferred: u8,
        a: &Addr,
        r: Reg,
    ) -> Result<(), AllocError>
        requires deferred { deferred ≤ 1 }
        requires short { length self.old.bytes.items + 1 < 2 ^ 32 }
        ensures { OnOk result (IsPut self.old self.new (disp_bytes deferred a.now.name a.now.offset r)
            (addr_refs (end_of self.old + 1) a.now.name a.now.offset)) }
    {
        let size = disp_size(a);
        self.byte_and_addr(alloc, mode(disp_mode(size) + deferred, r), size, a)
    }

    fn base(&mut self, alloc: Global, size: Size, base: &Base) -> Result<(), AllocError>
        requires { length self.old.bytes.items + 1 < 2 ^ 32 }
        ensures { OnOk result (IsPut self.old self.new (base_bytes size base.now) (base_refs (end_of self.old) size base.now)) }
    {
        match base {
            Base::Imm(a) => self.immediate(alloc, size, a),
            Base::Reg(r) => self.byte(mode(5, *r)),
            Base::Def(r) => self.byte(mode(6, *r)),
            Base::Dec(r) => self.byte(mode(7, *r)),
            Base::Inc(r) => self.byte(mode(8, *r)),
            Base::IncDef(r) => self.byte(mode(9, *r)),
            Base::Abs(n) => self.byte_and_number(0x9f, Size::Long, *n),
            Base::Disp(a, r) => self.displacement(alloc, 0, a, *r),
            Base::DispDef(a, r) => self.displacement(alloc, 1, a, *r),
            Base::Rel(a) => self.byte_and_addr(alloc, 0xef, Size::Long, a),
            Base::RelDef(a) => self.byte_and_addr(alloc, 0xff, Size::Long, a),
        }
    }

    /// An operand.
    #[tactic(auto, using(crate::proofs::WrittenLaws::base_behind_index))]
    pub fn operand(
        &mut self,
        alloc: Global,
        size: Size,
        operand: &Operand,
    ) -> Result<(), AllocError>
        requires { length self.old.bytes.items + 2 < 2 ^ 32 }
        ensures { OnOk result (IsPut self.old self.new (operand_bytes size operand.now) (operand_refs (end_of self.old) size operand.now)) }
    {
        let Some(x) = operand.index else {
            return self.base(alloc, size, &operand.base);
        };
        self.byte(mode(4, x))?;
        self.base(alloc, size, &operand.base)
    }

    /// The operands one after the other, each at its size.
    pub fn operands(
        &mut self,
        alloc: Global,
        kinds: &[OperandKind],
        operands: &[Operand],
    ) -> Result<(), AllocError>
        requires few { length kinds.now ≤ 3 }
        requires short { length self.old.bytes.items + 20 < 2 ^ 32 }
        ensures { OnOk result (IsPut self.old self.new (operands_bytes kinds.now operands.now)
            (operands_refs (end_of self.old) kinds.now operands.now)) }
    {
        let mut left = kinds;
        let mut rest = operands;
        while let [kind, others @ ..] = left {
            let [o, more @ ..] = rest else {
                return Ok(());
            };
            self.operand(alloc, kind.size, o)?;
            left = others;
            rest = more;
        }
        Ok(())
    }
}

// The first byte of a specifier: a mode and a register.
#[tactic(auto, using(vax_image_format::proofs::RegisterLaws::small_register))]
fn mode(m: u8, r: Reg) -> u8
    requires { m ≤ 15 }
    ensures { result ≡ mode m r }
{
    0x10 * m + r.number() as u8
}

fn low(size: Size, n: u32) -> u32
    ensures { result ≡ low size n }
{
    match size {
        Size::Byte => n % 0x100,
        Size::Word => n % 0x1_0000,
        Size::Long => n,
    }
}

/// The shortest field from which a displacement comes back with its sign.
pub fn disp_size(a: &Addr) -> Size
    ensures { result ≡ disp_size a.now.name a.now.offset }
{
    if a.name.is_some() {
        return Size::Long;
    }
    if sext8(a.offset) == a.offset {
        return Size::Byte;
    }
    if sext16(a.offset) == a.offset {
        return Size::Word;
    }
    Size::Long
}

fn disp_mode(size: Size) -> u8
    ensures is { result ≡ disp_mode size }
    ensures small { result ≤ 14 }
{
    match size {
        Size::Byte => 0xa,
        Size::Word => 0xc,
        Size::Long => 0xe,
    }
}
