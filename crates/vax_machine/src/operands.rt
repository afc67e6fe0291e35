// Operand specifiers: where each operand stands, what is taken of it, and where a result goes.
ghost use Rattle.std.specs.Prelude.{◌≡◌};
ghost use Rattle.vax_machine.specs.Operands.{address_of, in_front};

use crate::machine::Machine;
use crate::memory::{low, merged};
use crate::turn::{BAD_CODE, Stop};
use gg_base::{Size, w32};
use vax_core::{Access, Base, Operand, OperandKind, Reg};

/// Where an operand stands.
#[derive(Clone, Copy)]
pub enum Location {
    /// In the instruction itself: this number.
    Number(u32),
    Register(Reg),
    /// In memory, at this address.
    Memory(u32),
}

/// Where a result goes, and its size.
#[derive(Clone, Copy)]
pub struct Destination {
    pub location: Location,
    pub size: Size,
}

/// What an operand gives to its instruction.
#[derive(Clone, Copy)]
pub struct Evaluated {
    /// The number that was read, or the address that was taken; 0 where it is only written.
    pub number: u32,
    pub destination: Option<Destination>,
}

/// What all operands together give.
#[derive(Clone, Copy)]
pub struct Arguments {
    pub first: u32,
    pub second: u32,
    pub destination: Option<Destination>,
}

impl Arguments {
    pub(crate) const NONE: Arguments = Arguments {
        first: 0,
        second: 0,
        destination: None,
    };

    fn with_front(self, front: Evaluated) -> Arguments
        ensures { result ≡ in_front front self }
    {
        Arguments {
            first: front.number,
            second: self.first,
            destination: match self.destination {
                Some(destination) => Some(destination),
                None => front.destination,
            },
        }
    }
}

fn address_of(location: Location) -> Result<u32, Stop>
    ensures { result ≡ address_of location }
{
    match location {
        Location::Number(_) => Err(BAD_CODE),
        Location::Register(_) => Err(BAD_CODE),
        Location::Memory(address) => Ok(address),
    }
}

impl<'a> Machine<'a> {
    ghost use Rattle.vax_machine.specs.State.{Does, Leaves};
    ghost use Rattle.vax_machine.specs.Operands.{located, indexed, fetched, taken, evaluated, all_evaluated, put, stored, deferred};
    ghost use Rattle.vax_machine.specs.View.{state};
    ghost use Rattle.vax_machine.specs.Tables.{base_number, HasNumbers};

    // The address that stands at an address.
    fn defer(&mut self, address: u32) -> Result<Location, Stop>
        ensures { Does result (state self.new) (deferred (state self.old) address) }
    {
        let address = self.read(address, Size::Long)?;
        Ok(Location::Memory(address))
    }

    // Where an operand stands but for its index; registers that the operand steps are stepped. `number` is what the address in it
    // stands for.
    #[tactic(auto, unfolding(crate::specs::Operands::located))]
    fn locate(&mut self, base: &Base, number: u32, size: Size) -> Result<Location, Stop>
        requires { number ≡ base_number self.old.program.layout.now base.now }
        ensures { Does result (state self.new) (located (state self.old) base.now size) }
    {
        match base {
            Base::Imm(_) => Ok(Location::Number(number)),
            Base::Reg(r) => Ok(Location::Register(*r)),
            Base::Def(r) => Ok(Location::Memory(self.register(*r))),
            Base::Inc(r) => {
                let address = self.register(*r);
                self.set_register(*r, w32::add(address, size.bytes()))?;
                Ok(Location::Memory(address))
            }
            Base::IncDef(r) => {
                let address = self.register(*r);
                self.set_register(*r, w32::add(address, 4))?;
                self.defer(address)
            }
            Base::Dec(r) => {
                let address = w32::sub(self.register(*r), size.bytes());
                self.set_register(*r, address)?;
                Ok(Location::Memory(address))
            }
            Base::Disp(_, r) => Ok(Location::Memory(w32::add(number, self.register(*r)))),
            Base::DispDef(_, r) => self.defer(w32::add(number, self.register(*r))),
            Base::Abs(n) => Ok(Location::Memory(*n)),
            Base::Rel(_) => Ok(Location::Memory(number)),
            Base::RelDef(_) => self.defer(number),
        }
    }

    fn indexed(&self, location: Location, index: Option<Reg>, size: Size) -> Location
        ensures { result ≡ indexed (state self.now) location index size }
    {
        match index {
            None => location,
            Some(x) => match location {
                Location::Number(n) => Location::Number(n),
                Location::Register(r) => Location::Register(r),
                Location::Memory(address) => {
                    Location::Memory(w32::add(address, w32::mul(self.register(x), size.bytes())))
                }
            },
        }
    }

    fn fetch(&self, location: Location, size: Size) -> Result<u32, Stop>
        ensures { result ≡ fetched (state self.now) location size }
    {
        match location {
            Location::Number(n) => Ok(low(size, n)),
            Location::Register(r) => Ok(low(size, self.register(r))),
            Location::Memory(address) => self.read(address, size),
        }
    }

    // What an instruction takes of an operand that stands there.
    #[tactic(auto, unfolding(crate::specs::Operands::taken))]
    fn take(&self, access: Access, location: Location, size: Size) -> Result<Evaluated, Stop>
        ensures { result ≡ taken (state self.now) access location size }
    {
        let destination = Some(Destination { location, size });
        match access {
            Access::Read => {
                let number = self.fetch(location, size)?;
                Ok(Evaluated {
                    number,
                    destination: None,
                })
            }
            Access::Modify => {
                let number = self.fetch(location, size)?;
                Ok(Evaluated {
                    number,
                    destination,
                })
            }
            Access::Write => Ok(Evaluated {
                number: 0,
                destination,
            }),
            Access::Address => {
                let number = address_of(location)?;
                Ok(Evaluated {
                    number,
                    destination: None,
                })
            }
            Access::Count => {
                let number = self.fetch(location, size)?;
                Ok(Evaluated {
                    number,
                    destination: None,
                })
            }
        }
    }

    #[tactic(auto, unfolding(crate::specs::Operands::evaluated))]
    fn evaluate(
        &mut self,
        kind: OperandKind,
        operand: &Operand,
        number: u32,
    ) -> Result<Evaluated, Stop>
        requires { number ≡ base_number self.old.program.layout.now operand.now.base }
        ensures { Does result (state self.new) (evaluated (state self.old) kind operand.now) }
    {
        let base = self.locate(&operand.base, number, kind.size)?;
        let location = self.indexed(base, operand.index, kind.size);
        self.take(kind.access, location, kind.size)
    }

    /// Evaluates the operands from left to right, of which an instruction has at most three. `numbers` are what their addresses stand for.
    pub(crate) fn evaluate_all(
        &mut self,
        kinds: &[OperandKind],
        operands: &[Operand],
        numbers: &[u32],
    ) -> Result<Arguments, Stop>
        requires { HasNumbers self.old.program.layout.now kinds.now operands.now numbers.now }
        ensures { Does result (state self.new) (all_evaluated kinds.now operands.now (state self.old)) }
    {
        let [kind, kinds @ ..] = kinds else {
            return Ok(Arguments::NONE);
        };
        let [operand, operands @ ..] = operands else {
            return Err(BAD_CODE);
        };
        let [number, numbers @ ..] = numbers else {
            unreachable!();
        };
        let front = self.evaluate(*kind, operand, *number)?;
        if kinds.is_empty() {
            return Ok(Arguments::NONE.with_front(front));
        }
        let others = self.evaluate_all(kinds, operands, numbers)?;
        Ok(others.with_front(front))
    }

    /// Writes a result to its destination, where there is one.
    #[tactic(auto, unfolding(crate::specs::Operands::stored))]
    pub(crate) fn store(&mut self, destination: Option<Destination>, value: u32) -> Result<(), Stop>
        ensures { Leaves result (state self.new) (stored (state self.old) destination value) }
    {
        let Some(Destination { location, size }) = destination else {
            return Ok(());
        };
        match location {
            Location::Number(_) => Err(BAD_CODE),
            Location::Register(r) => {
                let value = merged(size, self.register(r), value);
                self.set_register(r, value)
            }
            Location::Memory(address) => self.write(address, size, value),
        }
    }
}
