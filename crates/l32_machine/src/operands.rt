// What operands give to an instruction, and where a result goes.
ghost use Rattle.std.specs.Prelude.{◌≡◌};
ghost use Rattle.l32_machine.specs.Operands.{register_of, in_front};

use crate::machine::Machine32;
use crate::memory::low;
use crate::turn::{BAD_CODE, Stop32};
use gg_base::{Size, w32};
use l32_core::{Operand32, Part, Role};

/// Where a result goes.
#[derive(Clone, Copy)]
pub enum Destination {
    /// To this general register.
    Register(u8),
    /// To memory at this address, at this size.
    Memory(u32, Size),
}

/// What an operand gives to its instruction.
#[derive(Clone, Copy)]
pub enum Evaluated {
    /// The number that was read, or the address that was taken.
    Number(u32),
    /// Where the result goes.
    Goes(Destination),
}

/// What all operands together give.
#[derive(Clone, Copy)]
pub struct Arguments {
    pub first: u32,
    pub second: u32,
    pub destination: Option<Destination>,
}

impl Arguments {
    pub(crate) const NONE: Arguments = Arguments {
        first: 0,
        second: 0,
        destination: None,
    };

    fn with_front(self, front: Evaluated) -> Arguments
        ensures { result ≡ in_front front self }
    {
        match front {
            Evaluated::Number(number) => Arguments {
                first: number,
                second: self.first,
                destination: self.destination,
            },
            Evaluated::Goes(destination) => Arguments {
                first: self.first,
                second: self.second,
                destination: Some(destination),
            },
        }
    }
}

// The register that a result goes to.
fn register_of(operand: &Operand32) -> Result<Evaluated, Stop32>
    ensures { result ≡ register_of operand.now }
{
    match operand {
        Operand32::Reg(n) => Ok(Evaluated::Goes(Destination::Register(*n))),
        Operand32::Num(_) | Operand32::At(_, _) | Operand32::Deferred(_, _) | Operand32::Addr(_) =>
            Err(BAD_CODE),
    }
}

impl<'a> Machine32<'a> {
    ghost use Rattle.l32_machine.specs.State.{Leaves};
    ghost use Rattle.l32_machine.specs.Operands.{address_of, fetched, evaluated, all_evaluated, stored, as_number};
    ghost use Rattle.l32_machine.specs.View.{state};
    ghost use Rattle.l32_machine.specs.Tables.{number_of, HasNumbers};

    // The address of the memory that an operand names. `number` is what a label in it stands for.
    #[tactic(auto, unfolding(crate::specs::Operands::address_of))]
    fn address_of(&self, operand: &Operand32, number: u32) -> Result<u32, Stop32>
        requires { number ≡ number_of self.now.program.layout.now operand.now }
        ensures { result ≡ address_of (state self.now) operand.now }
    {
        match operand {
            Operand32::Num(_) | Operand32::Reg(_) => Err(BAD_CODE),
            Operand32::At(n, base) => Ok(w32::add(self.base(*base), *n)),
            Operand32::Deferred(n, base) => self.read(w32::add(self.base(*base), *n), Size::Long),
            Operand32::Addr(_) => Ok(number),
        }
    }

    // The number that stands there.
    #[tactic(auto, unfolding(crate::specs::Operands::fetched))]
    fn fetch(&self, size: Size, operand: &Operand32, number: u32) -> Result<u32, Stop32>
        requires { number ≡ number_of self.now.program.layout.now operand.now }
        ensures { result ≡ fetched (state self.now) size operand.now }
    {
        match operand {
            Operand32::Num(n) => Ok(low(size, *n)),
            Operand32::Reg(n) => Ok(low(size, self.register(*n))),
            Operand32::At(_, _) | Operand32::Deferred(_, _) | Operand32::Addr(_) => {
                let address = self.address_of(operand, number)?;
                self.read(address, size)
            }
        }
    }

    fn fetched(&self, size: Size, operand: &Operand32, number: u32) -> Result<Evaluated, Stop32>
        requires { number ≡ number_of self.now.program.layout.now operand.now }
        ensures { result ≡ as_number (fetched (state self.now) size operand.now) }
    {
        let value = self.fetch(size, operand, number)?;
        Ok(Evaluated::Number(value))
    }

    #[tactic(auto, unfolding(crate::specs::Operands::evaluated))]
    fn evaluate(&self, role: Role, operand: &Operand32, number: u32) -> Result<Evaluated, Stop32>
        requires { number ≡ number_of self.now.program.layout.now operand.now }
        ensures { result ≡ evaluated (state self.now) role operand.now }
    {
        match role {
            Role::Number => self.fetched(Size::Long, operand, number),
            Role::Words => self.fetched(Size::Long, operand, number),
            Role::Count => self.fetched(Size::Long, operand, number),
            Role::Destination => register_of(operand),
            Role::Register => self.fetched(Size::Long, operand, number),
            Role::Source(size) => self.fetched(size, operand, number),
            Role::Store(size) => {
                let address = self.address_of(operand, number)?;
                Ok(Evaluated::Goes(Destination::Memory(address, size)))
            }
            Role::Address => {
                let address = self.address_of(operand, number)?;
                Ok(Evaluated::Number(address))
            }
        }
    }

    /// Evaluates the operands from left to right, of which an instruction has at most three. `numbers` are what labels in them stand for.
    pub(crate) fn evaluate_all(
        &self,
        parts: &[Part],
        operands: &[Operand32],
        numbers: &[u32],
    ) -> Result<Arguments, Stop32>
        requires { HasNumbers self.now.program.layout.now parts.now operands.now numbers.now }
        ensures { result ≡ all_evaluated (state self.now) parts.now operands.now }
    {
        let [part, parts @ ..] = parts else {
            return Ok(Arguments::NONE);
        };
        match part {
            Part::Label => self.evaluate_all(parts, operands, numbers),
            Part::Operand(role) => {
                let [operand, operands @ ..] = operands else {
                    return Err(BAD_CODE);
                };
                let [number, numbers @ ..] = numbers else {
                    unreachable!();
                };
                let front = self.evaluate(*role, operand, *number)?;
                let others = self.evaluate_all(parts, operands, numbers)?;
                Ok(others.with_front(front))
            }
        }
    }

    /// Puts a result where it goes, where there is such a place.
    #[tactic(auto, unfolding(crate::specs::Operands::stored))]
    pub(crate) fn store(
        &mut self,
        destination: Option<Destination>,
        value: u32,
    ) -> Result<(), Stop32>
        ensures { Leaves result (state self.new) (stored (state self.old) destination value) }
    {
        match destination {
            None => Ok(()),
            Some(Destination::Register(n)) => {
                self.set_register(n, value);
                Ok(())
            }
            Some(Destination::Memory(address, size)) => self.write(address, size, value),
        }
    }
}
