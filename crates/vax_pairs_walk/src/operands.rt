// Operands on terms: where each stands, and what an instruction takes of it.
ghost use Rattle.std.specs.Prelude.{◌≡◌, IfOk, Some, None};
ghost use Rattle.term_core.specs.Shape.{shape_of, Constant, Binary};
ghost use Rattle.vax_core.specs.declared.op.Access.TheVariants as accesses;
ghost use Rattle.vax_core.specs.declared.operand.Base.TheVariants as bases;
ghost use Rattle.vax_machine.specs.Area.{resolved};
ghost use Rattle.term_core.specs.declared.operator.BinaryOp.TheVariants.{Add};
ghost use Rattle.vax_pairs.specs.TermOperands.{truncated, in_register, moved, indexed, last_goal};
ghost use Rattle.vax_pairs_walk.specs.Answers.{Gives, Leads};
ghost use Rattle.vax_pairs_walk.specs.Taking.{deferred_at, located, fetched, addressed, taken, evaluated};
ghost use Rattle.vax_pairs_walk.specs.Taking.{no_arguments, in_front, all_evaluated};
ghost use Rattle.vax_pairs_walk.specs.Views.{held, state_of, front_of, spot_of, goal_of, taken_of, arguments_of};

use crate::code::Walk;
use crate::front::Front;
use crate::gap::Gap;
use crate::heap::{applied, boxed, copied, joined};
use crate::state::State;
use gg_base::{NoMemory, Size};
use std::alloc::Global;
use term_core::{BinaryOp, Term, UnaryOp};
use vax_core::{Access, Addr, Base, Operand, OperandKind, Reg};

/// What may break a run, changes memory, reads a byte or writes one; each read gives the next symbol.
#[derive(Drop)]
pub enum Event {
    /// A read of this size at an address.
    Reads(Size, Box<Term>),
    /// A number of this size is stored at an address.
    Stores(Size, Box<Term>, Box<Term>),
    /// sp is set, for which the stack has to have room.
    Lowers(Box<Term>),
    /// A division by a number that may be zero.
    Divides(Box<Term>),
    /// A byte of the input is read, or -1 at its end.
    Gets,
    /// A byte is written.
    Puts(Box<Term>),
}

/// Where an operand stands: a number itself, a register, or memory at an address.
#[derive(Drop)]
pub enum Spot {
    Number(Box<Term>),
    Register(Reg),
    Place(Box<Term>),
}

/// Where a result goes, and its size.
#[derive(Drop)]
pub struct Goal {
    pub spot: Spot,
    pub size: Size,
}

/// What is taken of one operand: its number or address, and its destination.
#[derive(Drop)]
pub struct Taken {
    pub number: Box<Term>,
    pub goal: Option<Goal>,
}

/// What is taken of all operands.
#[derive(Drop)]
pub struct Arguments {
    pub first: Box<Term>,
    pub second: Box<Term>,
    pub goal: Option<Goal>,
}

/// The low part of a number at a size.
pub fn truncated(alloc: Global, size: Size, t: Box<Term>) -> Result<Box<Term>, NoMemory>
    ensures { IfOk result (λ r. shape_of r.value ≡ truncated size (shape_of t.value)) }
{
    match size {
        Size::Byte => applied(alloc, UnaryOp::Zx8, t),
        Size::Word => applied(alloc, UnaryOp::Zx16, t),
        Size::Long => Ok(t),
    }
}

/// An operator on a register and a number.
pub fn register_with(
    alloc: Global,
    state: &State,
    op: BinaryOp,
    r: Reg,
    n: u32,
) -> Result<Box<Term>, NoMemory>
    ensures { IfOk result (λ t. shape_of t.value ≡ Binary op (in_register (state_of state.now) r) (Constant n)) }
{
    let r = state.register(alloc, r)?;
    let n = boxed(alloc, Term::K(n))?;
    joined(alloc, op, r, n)
}

// A place so much further.
fn moved(alloc: Global, spot: Spot, by: Box<Term>) -> Result<Spot, NoMemory>
    ensures { IfOk result (λ l. spot_of l ≡ moved (spot_of spot) (shape_of by.value)) }
{
    match spot {
        Spot::Number(t) => Ok(Spot::Number(t)),
        Spot::Register(r) => Ok(Spot::Register(r)),
        Spot::Place(a) => Ok(Spot::Place(joined(alloc, BinaryOp::Add, a, by)?)),
    }
}

// A place with its index, which counts in multiples of the operand's size.
fn indexed(
    alloc: Global,
    state: &State,
    spot: Spot,
    index: Option<Reg>,
    size: Size,
) -> Result<Spot, NoMemory>
    ensures { IfOk result (λ l. spot_of l ≡ indexed (state_of state.now) (spot_of spot) index size) }
{
    let Some(index) = index else {
        return Ok(spot);
    };
    match register_with(alloc, state, BinaryOp::Mul, index, size.bytes()) {
        Ok(by) => moved(alloc, spot, by),
        Err(NoMemory) => Err(NoMemory),
    }
}

// The address of a place.
fn addressed(spot: Spot) -> Result<Taken, Gap>
    ensures { Gives taken_of result (addressed (spot_of spot)) }
{
    match spot {
        Spot::Place(number) => Ok(Taken { number, goal: None }),
        _ => Err(Gap::NoTree),
    }
}

// What is taken of a place that is written alone.
fn written(alloc: Global, spot: Spot, size: Size) -> Result<Taken, NoMemory>
    ensures { IfOk result (λ x. taken_of x ≡ record { number = Constant 0; goal = Some (spot_of spot, size) }) }
{
    match boxed(alloc, Term::K(0)) {
        Ok(number) => Ok(Taken {
            number,
            goal: Some(Goal { spot, size }),
        }),
        Err(NoMemory) => Err(NoMemory),
    }
}

fn no_arguments(alloc: Global) -> Result<Arguments, NoMemory>
    ensures { IfOk result (λ x. arguments_of x ≡ no_arguments) }
{
    let first = boxed(alloc, Term::K(0))?;
    let second = boxed(alloc, Term::K(0))?;
    Ok(Arguments {
        first,
        second,
        goal: None,
    })
}

fn last_goal(front: Option<Goal>, last: Option<Goal>) -> Option<Goal>
    ensures { goal_of result ≡ last_goal (goal_of front) (goal_of last) }
{
    if let Some(goal) = last {
        return Some(goal);
    }
    front
}

// The arguments with an operand in front of them.
fn in_front(taken: Taken, others: Arguments) -> Arguments
    ensures { arguments_of result ≡ in_front (taken_of taken) (arguments_of others) }
{
    Arguments {
        first: taken.number,
        second: others.first,
        goal: last_goal(taken.goal, others.goal),
    }
}

impl<'a> Walk<'a> {
    // The number at an address is itself an address.
    fn deferred(self, front: &mut Front, a: Box<Term>) -> Result<Spot, Gap>
        ensures { Leads spot_of result (front_of front.new) (Some (deferred_at (shape_of a.value) (front_of front.old))) }
    {
        Ok(Spot::Place(front.read(self.alloc, Size::Long, a)?))
    }

    // The address so far from what a register holds.
    fn displaced(self, state: &State, d: &Addr, r: Reg) -> Result<Box<Term>, Gap>
        ensures { IfOk result (λ t. shape_of t.value
            ≡ Binary Add (Constant (resolved self.entry.layout.now d.now)) (in_register (state_of state.now) r)) }
    {
        let d = boxed(self.alloc, Term::K(self.resolve(d)?))?;
        let r = state.register(self.alloc, r)?;
        Ok(joined(self.alloc, BinaryOp::Add, d, r)?)
    }

    // A place behind which its register is stepped.
    fn incremented(self, front: &mut Front, r: Reg, size: Size) -> Result<Spot, Gap>
        ensures { Leads spot_of result (front_of front.new)
            (located self.entry.layout.now (front_of front.old) (bases.Inc r) size) }
    {
        let a = front.state.register(self.alloc, r)?;
        let next = register_with(self.alloc, &front.state, BinaryOp::Add, r, size.bytes())?;
        front.set_register(self.alloc, r, next)?;
        Ok(Spot::Place(a))
    }

    // The same where an address stands there.
    fn incremented_deferred(self, front: &mut Front, r: Reg, size: Size) -> Result<Spot, Gap>
        ensures { Leads spot_of result (front_of front.new)
            (located self.entry.layout.now (front_of front.old) (bases.IncDef r) size) }
    {
        let a = front.state.register(self.alloc, r)?;
        let next = register_with(self.alloc, &front.state, BinaryOp::Add, r, 4)?;
        front.set_register(self.alloc, r, next)?;
        self.deferred(front, a)
    }

    // A place before which its register is stepped.
    fn decremented(self, front: &mut Front, r: Reg, size: Size) -> Result<Spot, Gap>
        ensures { Leads spot_of result (front_of front.new)
            (located self.entry.layout.now (front_of front.old) (bases.Dec r) size) }
    {
        let next = register_with(self.alloc, &front.state, BinaryOp::Sub, r, size.bytes())?;
        let a = copied(self.alloc, &next)?;
        front.set_register(self.alloc, r, next)?;
        Ok(Spot::Place(a))
    }

    // Where an operand stands but for its index; its register is stepped before.
    fn located(self, front: &mut Front, base: &Base, size: Size) -> Result<Spot, Gap>
        ensures { Leads spot_of result (front_of front.new) (located self.entry.layout.now (front_of front.old) base.now size) }
    {
        let alloc = self.alloc;
        match base {
            Base::Imm(a) => Ok(Spot::Number(boxed(alloc, Term::K(self.resolve(a)?))?)),
            Base::Reg(r) => Ok(Spot::Register(*r)),
            Base::Def(r) => Ok(Spot::Place(front.state.register(alloc, *r)?)),
            Base::Inc(r) => self.incremented(front, *r, size),
            Base::IncDef(r) => self.incremented_deferred(front, *r, size),
            Base::Dec(r) => self.decremented(front, *r, size),
            Base::Disp(d, r) => Ok(Spot::Place(self.displaced(&front.state, d, *r)?)),
            Base::DispDef(d, r) => {
                let a = self.displaced(&front.state, d, *r)?;
                self.deferred(front, a)
            }
            Base::Abs(a) => Ok(Spot::Place(boxed(alloc, Term::K(*a))?)),
            Base::Rel(a) => Ok(Spot::Place(boxed(alloc, Term::K(self.resolve(a)?))?)),
            Base::RelDef(a) => {
                let a = boxed(alloc, Term::K(self.resolve(a)?))?;
                self.deferred(front, a)
            }
        }
    }

    // What stands there.
    fn fetched(self, front: &mut Front, spot: &Spot, size: Size) -> Result<Box<Term>, Gap>
        ensures { Leads held result (front_of front.new) (Some (fetched (front_of front.old) (spot_of spot.now) size)) }
    {
        let alloc = self.alloc;
        match spot {
            Spot::Number(t) => Ok(truncated(alloc, size, copied(alloc, t)?)?),
            Spot::Register(r) => {
                let t = front.state.register(alloc, *r)?;
                Ok(truncated(alloc, size, t)?)
            }
            Spot::Place(a) => {
                let a = copied(alloc, a)?;
                front.read(alloc, size, a)
            }
        }
    }

    // What is taken of an operand that is read.
    fn only_read(self, front: &mut Front, spot: Spot, size: Size) -> Result<Taken, Gap>
        ensures { Leads taken_of result (front_of front.new) (taken (front_of front.old) accesses.Read (spot_of spot) size) }
    {
        match self.fetched(front, &spot, size) {
            Ok(number) => Ok(Taken { number, goal: None }),
            Err(gap) => Err(gap),
        }
    }

    // What is taken of an operand that is read and written.
    fn modified(self, front: &mut Front, spot: Spot, size: Size) -> Result<Taken, Gap>
        ensures { Leads taken_of result (front_of front.new) (taken (front_of front.old) accesses.Modify (spot_of spot) size) }
    {
        match self.fetched(front, &spot, size) {
            Ok(number) => Ok(Taken {
                number,
                goal: Some(Goal { spot, size }),
            }),
            Err(gap) => Err(gap),
        }
    }

    fn taken(self, front: &mut Front, access: Access, spot: Spot, size: Size) -> Result<Taken, Gap>
        ensures { Leads taken_of result (front_of front.new) (taken (front_of front.old) access (spot_of spot) size) }
    {
        match access {
            Access::Read => self.only_read(front, spot, size),
            Access::Modify => self.modified(front, spot, size),
            Access::Write => Ok(written(self.alloc, spot, size)?),
            Access::Address => addressed(spot),
            Access::Count => Err(Gap::NoTree),
        }
    }

    fn evaluated(
        self,
        front: &mut Front,
        kind: OperandKind,
        operand: &Operand,
    ) -> Result<Taken, Gap>
        ensures { Leads taken_of result (front_of front.new)
            (evaluated self.entry.layout.now (front_of front.old) kind operand.now.base operand.now.index) }
    {
        let spot = self.located(front, &operand.base, kind.size)?;
        let spot = indexed(self.alloc, &front.state, spot, operand.index, kind.size)?;
        self.taken(front, kind.access, spot, kind.size)
    }

    /// What is taken of all operands.
    pub fn all_evaluated(
        self,
        front: &mut Front,
        kinds: &[OperandKind],
        operands: &[Operand],
    ) -> Result<Arguments, Gap>
        ensures { Leads arguments_of result (front_of front.new)
            (all_evaluated self.entry.layout.now (front_of front.old) kinds.now operands.now) }
    {
        let [kind, kinds @ ..] = kinds else {
            return Ok(no_arguments(self.alloc)?);
        };
        let [operand, operands @ ..] = operands else {
            return Err(Gap::NoTree);
        };
        let taken = self.evaluated(front, *kind, operand)?;
        match self.all_evaluated(front, kinds, operands) {
            Ok(others) => Ok(in_front(taken, others)),
            Err(gap) => Err(gap),
        }
    }
}
