// The two services on terms: a byte is written, or read.
ghost use Rattle.std.specs.Prelude.{◌≡◌, Some, OnOk};
ghost use Rattle.std.specs.Str.{bytes_eq};
ghost use Rattle.term_core.specs.Shape.{shape_of};
ghost use Rattle.vax_core.specs.First.{putchar_name};
ghost use Rattle.vax_machine.specs.Labels.{getchar_name};
ghost use Rattle.vax_pairs.specs.TermOperands.{holding};
ghost use Rattle.vax_pairs.specs.TermRuns.{uncoded};
ghost use Rattle.vax_pairs_walk.specs.Computing.{byte_written, byte_read};
ghost use Rattle.vax_pairs_walk.specs.Views.{state_of, front_of};

use crate::front::Front;
use crate::gap::Gap;
use crate::heap::{applied, boxed, copied};
use crate::operands::{Event, register_with};
use crate::state::{Carry, Signs, State};
use gg_base::Size;
use std::alloc::Global;
use term_core::{BinaryOp, Term, UnaryOp};
use vax_core::Reg;
use vax_machine::function::Function;

/// Whether this is the name of the service that writes a byte.
pub fn is_putchar(name: &[u8]) -> bool
    ensures { result ≡ bytes_eq name.now putchar_name }
{
    name == b"_putchar".as_slice()
}

/// Whether this is the name of the service that reads a byte.
pub fn is_getchar(name: &[u8]) -> bool
    ensures { result ≡ bytes_eq name.now getchar_name }
{
    name == b"_getchar".as_slice()
}

impl State {
    // r0 holds what a service answers; N, Z and C are clear.
    fn answer(&mut self, alloc: Global, t: Box<Term>) -> Result<(), Gap>
        ensures { OnOk result (state_of self.new ≡ uncoded (holding (state_of self.old) 0 (shape_of t.value))) }
    {
        let tested = boxed(alloc, Term::K(1))?;
        let first = boxed(alloc, Term::K(1))?;
        let second = boxed(alloc, Term::K(0))?;
        self.hold(0, t)?;
        self.signs = Signs::Tests(Size::Long, tested);
        self.carry = Carry::Made(Function::CompareWithZero(Size::Long), first, second);
        Ok(())
    }
}

impl Front {
    /// A byte is taken off the stack and written, and r0 is that byte.
    pub fn put_byte(&mut self, alloc: Global) -> Result<(), Gap>
        ensures { OnOk result (Some (front_of self.new) ≡ byte_written (front_of self.old)) }
    {
        let top = self.state.register(alloc, Reg::Sp)?;
        let popped = register_with(alloc, &self.state, BinaryOp::Add, Reg::Sp, 4)?;
        let read = self.read(alloc, Size::Long, top)?;
        let byte = applied(alloc, UnaryOp::Zx8, read)?;
        let answer = copied(alloc, &byte)?;
        self.set_register(alloc, Reg::Sp, popped)?;
        self.events.push(Event::Puts(byte))?;
        self.state.answer(alloc, answer)
    }

    /// r0 is a byte of the input, or -1 at its end.
    pub fn get_byte(&mut self, alloc: Global) -> Result<(), Gap>
        ensures { OnOk result (front_of self.new ≡ byte_read (front_of self.old)) }
    {
        let symbol = self.known;
        let Some(behind) = symbol.checked_add(1) else {
            return Err(Gap::NoTree);
        };
        let answer = boxed(alloc, Term::V(symbol))?;
        self.events.push(Event::Gets)?;
        self.known = behind;
        self.state.answer(alloc, answer)
    }
}
