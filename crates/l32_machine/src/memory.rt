// Memory: the data area and the stack, as bytes; and the registers.
ghost use Rattle.std.specs.Prelude.{◌≡◌, IfOk};
ghost use Rattle.gg_base.specs.Sizes.{low};

use crate::machine::Machine32;
use crate::turn::{ACCESS, STACK_FULL, Stop32};
use gg_base::limits::{AREA_START, STACK_START, STACK_TOP};
use gg_base::little_endian::{number_in, put_number};
use gg_base::{Size, w32};
use l32_core::Base32;

/// How many general registers there are.
const REGISTERS: u8 = 12;

/// Where some bytes of memory are kept: from a place of the data area's bytes on, or of the stack's.
#[derive(Clone, Copy)]
pub enum Region {
    Area(usize),
    Stack(usize),
}

// The low part of a number at a size.
pub(crate) fn low(size: Size, value: u32) -> u32
    ensures { result ≡ low size value }
{
    match size {
        Size::Byte => w32::zext8(value),
        Size::Word => w32::zext16(value),
        Size::Long => value,
    }
}

impl<'a> Machine32<'a> {
    ghost use Rattle.l32_machine.specs.State.{Leaves};
    ghost use Rattle.l32_machine.specs.State.{reg, with_reg, base};
    ghost use Rattle.l32_machine.specs.Memory.{touched, read, written, sp_set};
    ghost use Rattle.l32_machine.specs.View.{state};
    ghost use Rattle.l32_machine.specs.Inside.{IsInside};

    /// Where the bytes at an address are kept. ACCESS where one of them is outside memory.
    #[tactic(auto, unfolding(crate::specs::Memory::touched))]
    pub(crate) fn touch(&self, address: u32, size: Size) -> Result<Region, Stop32>
        ensures region { result ≡ touched (state self.now) address size }
        ensures inside { IfOk result (λ r. IsInside (state self.now) size r) }
    {
        let end = address as u64 + size.bytes() as u64;
        if AREA_START <= address && end <= AREA_START as u64 + self.area.len() as u64 {
            return Ok(Region::Area((address - AREA_START) as usize));
        }
        if STACK_START <= address && end <= STACK_TOP as u64 {
            return Ok(Region::Stack((address - STACK_START) as usize));
        }
        Err(ACCESS)
    }

    #[tactic(auto, unfolding(crate::specs::Memory::read))]
    pub(crate) fn read(&self, address: u32, size: Size) -> Result<u32, Stop32>
        ensures { result ≡ read (state self.now) address size }
    {
        match self.touch(address, size)? {
            Region::Area(at) => Ok(number_in(size, self.area.as_slice(), at)),
            Region::Stack(at) => Ok(number_in(size, self.stack.as_slice(), at)),
        }
    }

    #[tactic(auto, unfolding(crate::specs::Memory::written))]
    pub(crate) fn write(&mut self, address: u32, size: Size, value: u32) -> Result<(), Stop32>
        ensures { Leaves result (state self.new) (written (state self.old) address size value) }
    {
        match self.touch(address, size)? {
            Region::Area(at) => put_number(size, self.area.as_mut_slice(), at, value),
            Region::Stack(at) => put_number(size, self.stack.as_mut_slice(), at, value),
        }
        Ok(())
    }

    /// What `aN` holds.
    pub(crate) fn register(&self, n: u8) -> u32
        ensures { result ≡ reg (state self.now) n }
    {
        self.general.get(n as usize).copied().unwrap_or(0)
    }

    #[tactic(auto, using(std::proofs::lemmas::List::set_past))]
    pub(crate) fn set_register(&mut self, n: u8, value: u32)
        ensures { state self.new ≡ with_reg (state self.old) n value }
    {
        if n < REGISTERS {
            self.general[n as usize] = value;
        }
    }

    /// What the register of a displacement holds.
    pub(crate) fn base(&self, register: Base32) -> u32
        ensures { result ≡ base (state self.now) register }
    {
        match register {
            Base32::A(n) => self.register(n),
            Base32::Fp => self.fp,
            Base32::Sp => self.sp,
        }
    }

    /// Sets the stack pointer. STACK_FULL where it falls under the stack's bottom.
    #[tactic(auto, unfolding(crate::specs::Memory::sp_set))]
    pub(crate) fn set_sp(&mut self, value: u32) -> Result<(), Stop32>
        ensures { Leaves result (state self.new) (sp_set (state self.old) value) }
    {
        if value < STACK_START {
            return Err(STACK_FULL);
        }
        self.sp = value;
        Ok(())
    }
}
