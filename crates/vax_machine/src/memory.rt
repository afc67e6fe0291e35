// Memory: the data area and the stack, as bytes.
ghost use Rattle.std.specs.Prelude.{◌≡◌, ◌<◌, IfOk};
ghost use Rattle.gg_base.specs.Sizes.{low};
ghost use Rattle.vax_machine.specs.Memory.{merged};
ghost use Rattle.vax_core.specs.Registers.{reg_number};

use crate::machine::Machine;
use crate::turn::{ACCESS, FRAME, STACK_FULL, Stop};
use gg_base::limits::{AREA_START, STACK_START, STACK_TOP};
use gg_base::little_endian::{number_in, put_number};
use gg_base::{Size, w32};
use vax_core::Reg;

/// Where some bytes of memory are kept: from a place of the data area's bytes on, or of the stack's.
#[derive(Clone, Copy)]
pub enum Region {
    Area(usize),
    Stack(usize),
}

// The low part of a number at a size.
pub(crate) fn low(size: Size, value: u32) -> u32
    ensures { result ≡ low size value }
{
    match size {
        Size::Byte => w32::zext8(value),
        Size::Word => w32::zext16(value),
        Size::Long => value,
    }
}

// A number over the low part of another.
pub(crate) fn merged(size: Size, old: u32, value: u32) -> u32
    ensures { result ≡ merged size old value }
{
    match size {
        Size::Byte => old - old % 0x100 + value % 0x100,
        Size::Word => old - old % 0x1_0000 + value % 0x1_0000,
        Size::Long => value,
    }
}

// A register's number, of which there are 15.
#[tactic(auto, using(crate::proofs::Registers::reg_below))]
fn number_of(r: Reg) -> usize
    ensures number { result ≡ reg_number r }
    ensures bound { result < 15 }
{
    r.number()
}

impl<'a> Machine<'a> {
    ghost use Rattle.vax_machine.specs.State.{Leaves};
    ghost use Rattle.vax_machine.specs.State.{reg};
    ghost use Rattle.vax_machine.specs.Memory.{touched, read, written, register_set};
    ghost use Rattle.vax_machine.specs.View.{state};
    ghost use Rattle.vax_machine.specs.Inside.{IsInside};

    /// Where the bytes at an address are kept. ACCESS where one of them is outside memory, else FRAME where one is a control word.
    #[tactic(auto, unfolding(crate::specs::Memory::touched))]
    pub(crate) fn touch(&self, address: u32, size: Size) -> Result<Region, Stop>
        ensures region { result ≡ touched (state self.now) address size }
        ensures inside { IfOk result (λ r. IsInside (state self.now) size r) }
    {
        let end = address as u64 + size.bytes() as u64;
        if AREA_START <= address && end <= AREA_START as u64 + self.area.len() as u64 {
            return Ok(Region::Area((address - AREA_START) as usize));
        }
        if STACK_START <= address && end <= STACK_TOP as u64 {
            if self.frames.hold(address, size.bytes()) {
                return Err(FRAME);
            }
            return Ok(Region::Stack((address - STACK_START) as usize));
        }
        Err(ACCESS)
    }

    #[tactic(auto, unfolding(crate::specs::Memory::read))]
    pub(crate) fn read(&self, address: u32, size: Size) -> Result<u32, Stop>
        ensures { result ≡ read (state self.now) address size }
    {
        match self.touch(address, size)? {
            Region::Area(at) => Ok(number_in(size, self.area.as_slice(), at)),
            Region::Stack(at) => Ok(number_in(size, self.stack.as_slice(), at)),
        }
    }

    #[tactic(auto, unfolding(crate::specs::Memory::written))]
    pub(crate) fn write(&mut self, address: u32, size: Size, value: u32) -> Result<(), Stop>
        ensures { Leaves result (state self.new) (written (state self.old) address size value) }
    {
        match self.touch(address, size)? {
            Region::Area(at) => put_number(size, self.area.as_mut_slice(), at, value),
            Region::Stack(at) => put_number(size, self.stack.as_mut_slice(), at, value),
        }
        Ok(())
    }

    pub(crate) fn register(&self, r: Reg) -> u32
        ensures { result ≡ reg (state self.now) r }
    {
        self.registers[number_of(r)]
    }

    /// Sets a register. STACK_FULL where it is sp and falls under the stack's bottom.
    #[tactic(auto, unfolding(crate::specs::Memory::register_set))]
    pub(crate) fn set_register(&mut self, r: Reg, value: u32) -> Result<(), Stop>
        ensures { Leaves result (state self.new) (register_set (state self.old) r value) }
    {
        let number = number_of(r);
        self.registers[number] = value;
        if number == 14 && value < STACK_START {
            return Err(STACK_FULL);
        }
        Ok(())
    }
}
