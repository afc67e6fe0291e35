// What an instruction that computes gives on terms, and where it puts it.
ghost use Rattle.std.specs.Prelude.{◌≡◌, Some, IfOk, OnOk};
ghost use Rattle.gg_base.specs.declared.size.Size.TheVariants.{Long};
ghost use Rattle.term_core.specs.Shape.{shape_of, Constant, Binary};
ghost use Rattle.vax_pairs.specs.TermResults.{extended, of_value, given, carry_behind, coded_behind};
ghost use Rattle.vax_pairs_walk.specs.Computing.{put_at, guarded_in, finished, computed, push_number, pushed};
ghost use Rattle.vax_pairs_walk.specs.Views.{signs_of, carry_of, state_of, front_of, goal_of, arguments_of};
ghost use Rattle.vax_pairs_walk.specs.Outcomes.{given_of};

use crate::code::Walk;
use crate::front::Front;
use crate::gap::Gap;
use crate::heap::{applied, boxed, copied, joined};
use crate::operands::{Arguments, Event, Goal, Spot, register_with, truncated};
use crate::state::{Carry, Signs, State};
use gg_base::{NoMemory, Size};
use std::alloc::Global;
use term_core::{BinaryOp, Term, UnaryOp};
use vax_core::{Operand, OperandKind, Reg};
use vax_machine::function::Function;

/// What a function gives: its number, and N and Z.
#[derive(Drop)]
pub struct Outcome {
    pub number: Box<Term>,
    pub signs: Signs,
}

fn extended(alloc: Global, size: Size, t: Box<Term>) -> Result<Box<Term>, NoMemory>
    ensures { IfOk result (λ r. shape_of r.value ≡ extended size (shape_of t.value)) }
{
    match size {
        Size::Byte => applied(alloc, UnaryOp::Sx8, t),
        Size::Word => applied(alloc, UnaryOp::Sx16, t),
        Size::Long => Ok(t),
    }
}

// A number whose own sign and zero are N and Z.
fn of_value(alloc: Global, size: Size, number: Box<Term>) -> Result<Outcome, NoMemory>
    ensures { IfOk result (λ g. given_of g ≡ of_value size (shape_of number.value)) }
{
    let tested = copied(alloc, &number)?;
    Ok(Outcome {
        number,
        signs: Signs::Tests(size, tested),
    })
}

// What an operator on two numbers gives.
fn of_two(alloc: Global, op: BinaryOp, a: &Term, b: &Term) -> Result<Outcome, NoMemory>
    ensures { IfOk result (λ g. given_of g ≡ of_value Long (Binary op (shape_of a.now) (shape_of b.now))) }
{
    let a = copied(alloc, a)?;
    let b = copied(alloc, b)?;
    of_value(alloc, Size::Long, joined(alloc, op, a, b)?)
}

// What a comparison gives, which has no number.
fn compared(alloc: Global, signs: Signs) -> Result<Outcome, NoMemory>
    ensures { IfOk result (λ g. given_of g ≡ (Constant 0, signs_of signs)) }
{
    match boxed(alloc, Term::K(0)) {
        Ok(number) => Ok(Outcome { number, signs }),
        Err(NoMemory) => Err(NoMemory),
    }
}

// What a function gives of two operands.
fn given(alloc: Global, function: Function, a: &Term, b: &Term) -> Result<Outcome, NoMemory>
    ensures { IfOk result (λ g. given_of g ≡ given function (shape_of a.now) (shape_of b.now)) }
{
    match function {
        Function::Copy(size) => of_value(alloc, size, copied(alloc, a)?),
        Function::Clear => of_value(alloc, Size::Long, boxed(alloc, Term::K(0))?),
        Function::Negate => {
            let a = copied(alloc, a)?;
            of_value(alloc, Size::Long, applied(alloc, UnaryOp::Neg, a)?)
        }
        Function::Complement => {
            let a = copied(alloc, a)?;
            of_value(alloc, Size::Long, applied(alloc, UnaryOp::Com, a)?)
        }
        Function::SignExtend(size) => {
            let a = copied(alloc, a)?;
            of_value(alloc, Size::Long, extended(alloc, size, a)?)
        }
        Function::Truncate(size) => {
            let a = copied(alloc, a)?;
            of_value(alloc, size, truncated(alloc, size, a)?)
        }
        Function::Add => of_two(alloc, BinaryOp::Add, a, b),
        Function::Subtract => of_two(alloc, BinaryOp::Sub, b, a),
        Function::Multiply => of_two(alloc, BinaryOp::Mul, a, b),
        Function::Divide => of_two(alloc, BinaryOp::Div, b, a),
        Function::Increment => of_two(alloc, BinaryOp::Add, a, &Term::K(1)),
        Function::Decrement => of_two(alloc, BinaryOp::Sub, a, &Term::K(1)),
        Function::BitSet => of_two(alloc, BinaryOp::Or, a, b),
        Function::BitClear => {
            let mask = applied(alloc, UnaryOp::Com, copied(alloc, a)?)?;
            of_two(alloc, BinaryOp::And, b, &mask)
        }
        Function::ExclusiveOr => of_two(alloc, BinaryOp::Xor, a, b),
        Function::BitTest => of_two(alloc, BinaryOp::And, a, b),
        Function::Shift => of_two(alloc, BinaryOp::Ash, a, b),
        Function::Compare(size) => {
            let a = copied(alloc, a)?;
            let b = copied(alloc, b)?;
            compared(alloc, Signs::Compares(size, a, b))
        }
        Function::CompareWithZero(size) => compared(alloc, Signs::Tests(size, copied(alloc, a)?)),
    }
}

impl State {
    // C behind a function of these operands.
    fn set_carry(
        &mut self,
        alloc: Global,
        function: Function,
        a: &Term,
        b: &Term,
    ) -> Result<(), NoMemory>
        ensures carry { OnOk result (carry_of self.new.carry
            ≡ carry_behind function (shape_of a.now) (shape_of b.now) (carry_of self.old.carry)) }
        ensures registers { self.new.registers ≡ self.old.registers }
        ensures signs { self.new.signs ≡ self.old.signs }
    {
        match function {
            Function::Copy(_)
            | Function::Clear
            | Function::Complement
            | Function::BitSet
            | Function::BitClear
            | Function::ExclusiveOr
            | Function::BitTest => {}
            function => {
                let a = copied(alloc, a)?;
                let b = copied(alloc, b)?;
                self.carry = Carry::Made(function, a, b);
            }
        }
        Ok(())
    }

    // N, Z and C behind a function of these operands.
    fn set_codes(
        &mut self,
        alloc: Global,
        function: Function,
        a: &Term,
        b: &Term,
        signs: Signs,
    ) -> Result<(), NoMemory>
        ensures { OnOk result (state_of self.new
            ≡ coded_behind (state_of self.old) function (shape_of a.now) (shape_of b.now) (signs_of signs)) }
    {
        match self.set_carry(alloc, function, a, b) {
            Ok(()) => {
                self.signs = signs;
                Ok(())
            }
            Err(NoMemory) => Err(NoMemory),
        }
    }
}

impl Front {
    // The number at a destination.
    fn put(&mut self, alloc: Global, goal: Option<Goal>, t: Box<Term>) -> Result<(), Gap>
        ensures { OnOk result (Some (front_of self.new) ≡ put_at (front_of self.old) (goal_of goal) (shape_of t.value)) }
    {
        let Some(Goal { spot, size }) = goal else {
            return Ok(());
        };
        match spot {
            Spot::Number(_) => Err(Gap::NoTree),
            Spot::Register(r) => match size {
                Size::Long => self.set_register(alloc, r, t),
                Size::Byte | Size::Word => Err(Gap::NoTree),
            },
            Spot::Place(a) => {
                self.events.push(Event::Stores(size, a, t))?;
                Ok(())
            }
        }
    }

    // A divisor may be zero.
    fn guard(&mut self, alloc: Global, function: Function, a: &Term) -> Result<(), Gap>
        ensures { OnOk result (front_of self.new ≡ guarded_in (front_of self.old) function (shape_of a.now)) }
    {
        match function {
            Function::Divide => {
                let a = copied(alloc, a)?;
                self.events.push(Event::Divides(a))?;
                Ok(())
            }
            _ => Ok(()),
        }
    }

    // What an instruction does whose operands are evaluated.
    fn finish(&mut self, alloc: Global, function: Function, x: Arguments) -> Result<(), Gap>
        ensures { OnOk result (Some (front_of self.new) ≡ finished (front_of self.old) function (arguments_of x)) }
    {
        let Arguments {
            first,
            second,
            goal,
        } = x;
        self.guard(alloc, function, &first)?;
        let Outcome { number, signs } = given(alloc, function, &first, &second)?;
        self.state
            .set_codes(alloc, function, &first, &second, signs)?;
        self.put(alloc, goal, number)
    }

    // A longword is pushed, which N and Z are of.
    fn push(&mut self, alloc: Global, t: Box<Term>) -> Result<(), Gap>
        ensures { OnOk result (Some (front_of self.new) ≡ push_number (front_of self.old) (shape_of t.value)) }
    {
        let sp = register_with(alloc, &self.state, BinaryOp::Sub, Reg::Sp, 4)?;
        let a = copied(alloc, &sp)?;
        let tested = copied(alloc, &t)?;
        self.set_register(alloc, Reg::Sp, sp)?;
        self.events.push(Event::Stores(Size::Long, a, t))?;
        self.state.signs = Signs::Tests(Size::Long, tested);
        Ok(())
    }
}

impl<'a> Walk<'a> {
    /// An instruction that computes.
    pub fn computed(
        self,
        front: &mut Front,
        function: Function,
        kinds: &[OperandKind],
        operands: &[Operand],
    ) -> Result<(), Gap>
        ensures { OnOk result (Some (front_of front.new)
            ≡ computed self.entry.layout.now (front_of front.old) function kinds.now operands.now) }
    {
        match self.all_evaluated(front, kinds, operands) {
            Ok(arguments) => front.finish(self.alloc, function, arguments),
            Err(gap) => Err(gap),
        }
    }

    /// An instruction that pushes.
    pub fn pushed(
        self,
        front: &mut Front,
        kinds: &[OperandKind],
        operands: &[Operand],
    ) -> Result<(), Gap>
        ensures { OnOk result (Some (front_of front.new)
            ≡ pushed self.entry.layout.now (front_of front.old) kinds.now operands.now) }
    {
        match self.all_evaluated(front, kinds, operands) {
            Ok(Arguments { first, .. }) => front.push(self.alloc, first),
            Err(gap) => Err(gap),
        }
    }
}
