// Where an operand of a template stands, on terms.
ghost use Rattle.std.specs.Prelude.{◌≡◌, IfOk, None};
ghost use Rattle.std.specs.Option.{option_map};
ghost use Rattle.term_core.specs.Shape.{shape_of, Symbol};
ghost use Rattle.vax_templates.specs.HoleTerms.{constant_of, address_of, absolute_term, number_term, own_value};
ghost use Rattle.vax_templates.specs.HoleTerms.{register_of, register_term};
ghost use Rattle.vax_templates.specs.Standing.{At, where_own, where_hole, where_zero, through, where_deferred, where_base};
ghost use Rattle.vax_templates.specs.Standing.{moved, where_indexed, form_where, displaced, sum, scaled};
ghost use Rattle.vax_templates.specs.Settings.{hole_at};
ghost use Rattle.vax_target_taking.specs.Answers.{Judges};
ghost use Rattle.vax_target_taking.specs.Stages.{sum_of};
ghost use Rattle.vax_target_taking.specs.Views.{where_of, held, term_of};

use crate::heap::{boxed, copied, joined};
use crate::setting::hole_at;
use gg_base::{NoMemory, Size};
use std::alloc::Global;
use term_core::{BinaryOp, Term, UnaryOp, unary};
use vax_target_forms::refusal::{NOT_INSTR, Refusal};
use vax_templates::{Base, Form, Hole, Number, Opening, Own, Setting};

/// Where an operand stands: a number, a symbol's register, `%0`, register 0, a symbol's value or place, a local or an argument, a place
/// whose address is saved, the local of the last call's result, or memory at an address, for which a pointer may have been read.
#[derive(Drop)]
pub enum Location {
    Number(Box<Term>),
    Register(u8),
    Own,
    RegisterZero,
    Value(Size, u8),
    Place(Size, u8),
    Local(u8),
    SavedPlace(Size, u8),
    Saved(u8),
    At(Box<Term>, Option<Box<Term>>),
}

/// What the lines of a template may do, what its holes stand for, and where memory is taken from.
#[derive(Clone, Copy)]
pub struct Template<'a> {
    pub alloc: Global,
    pub setting: Setting,
    pub holes: &'a [Hole],
}

fn constant_of(hole: Hole, i: u8) -> Result<Term, Refusal>
    ensures { Judges shape_of result (constant_of hole i) }
{
    match hole {
        Hole::Constant => Ok(Term::V(i)),
        Hole::Literal(n) => Ok(Term::K(n)),
        _ => Err(NOT_INSTR),
    }
}

fn address_of(hole: Hole, i: u8) -> Result<Term, Refusal>
    ensures { Judges shape_of result (address_of hole i) }
{
    match hole {
        Hole::Object => Ok(Term::V(i)),
        hole => constant_of(hole, i),
    }
}

fn own_value(alloc: Global, own: Own, zero: &Option<Box<Term>>) -> Result<Box<Term>, Refusal>
    ensures { Judges held result (own_value own (term_of zero.now)) }
{
    match (own, zero) {
        (Own::Register, Some(t)) => Ok(copied(alloc, t)?),
        _ => Err(NOT_INSTR),
    }
}

fn register_of(hole: Hole, i: u8) -> Result<Term, Refusal>
    ensures { Judges shape_of result (register_of hole i) }
{
    match hole {
        Hole::Register => Ok(Term::V(i)),
        _ => Err(NOT_INSTR),
    }
}

/// Where `%0` stands.
pub fn where_own(own: Own) -> Result<Location, Refusal>
    ensures { Judges where_of result (where_own own) }
{
    match own {
        Own::Nothing => Err(NOT_INSTR),
        Own::Register | Own::Slot(_) => Ok(Location::Own),
    }
}

// Memory at the address that a symbol stands for.
fn at_symbol(alloc: Global, i: u8) -> Result<Location, NoMemory>
    ensures { IfOk result (λ w. where_of w ≡ At (Symbol i) None) }
{
    Ok(Location::At(boxed(alloc, Term::V(i))?, None))
}

/// Where the hole of a symbol alone stands.
pub fn where_hole(alloc: Global, hole: Hole, i: u8) -> Result<Location, Refusal>
    ensures { Judges where_of result (where_hole hole i) }
{
    match hole {
        Hole::Register => Ok(Location::Register(i)),
        Hole::Value(size) => Ok(Location::Value(size, i)),
        Hole::Place(size) => Ok(Location::Place(size, i)),
        Hole::Local => Ok(Location::Local(i)),
        Hole::SavedPlace(size) => Ok(Location::SavedPlace(size, i)),
        Hole::Address => Ok(at_symbol(alloc, i)?),
        Hole::Object => Ok(at_symbol(alloc, i)?),
        Hole::Saved => Ok(Location::Saved(i)),
        _ => Err(NOT_INSTR),
    }
}

/// Where register 0 stands: only a rule that returns or saves spells it.
pub fn where_zero(opening: Opening) -> Result<Location, Refusal>
    ensures { Judges where_of result (where_zero opening) }
{
    match opening {
        Opening::Return | Opening::Save => Ok(Location::RegisterZero),
        Opening::Other => Err(NOT_INSTR),
    }
}

/// Memory at the address that is read at an address.
pub fn through(alloc: Global, a: Box<Term>) -> Result<Location, NoMemory>
    ensures { IfOk result (λ w. where_of w ≡ through (shape_of a.value)) }
{
    let a = boxed(alloc, Term::Mem(Size::Long, a))?;
    let pointer = copied(alloc, &a)?;
    Ok(Location::At(a, Some(pointer)))
}

fn where_deferred(alloc: Global, hole: Hole, i: u8) -> Result<Location, Refusal>
    ensures { Judges where_of result (where_deferred hole i) }
{
    match hole {
        Hole::Local => Ok(at_symbol(alloc, i)?),
        Hole::Object => Ok(through(alloc, boxed(alloc, Term::V(i))?)?),
        _ => Err(NOT_INSTR),
    }
}

// The address so many operands of this size behind another.
fn address_behind(
    alloc: Global,
    size: Size,
    a: Box<Term>,
    x: Box<Term>,
) -> Result<Box<Term>, NoMemory>
    ensures { IfOk result (λ t. shape_of t.value ≡ sum (shape_of a.value) (scaled size (shape_of x.value))) }
{
    let bytes = boxed(alloc, Term::K(size.bytes()))?;
    let x = joined(alloc, BinaryOp::Mul, bytes, x)?;
    joined(alloc, BinaryOp::Add, a, x)
}

impl<'a> Template<'a> {
    /// The number, or the constant that a symbol stands for.
    pub fn absolute_term(self, number: Number) -> Result<Term, Refusal>
        ensures { Judges shape_of result (absolute_term self.entry.holes.now number) }
    {
        match number {
            Number::Itself(n) => Ok(Term::K(n)),
            Number::Symbol(i) => constant_of(hole_at(self.holes, i), i),
        }
    }

    fn number_term(self, number: Number) -> Result<Term, Refusal>
        ensures { Judges shape_of result (number_term self.entry.holes.now number) }
    {
        match number {
            Number::Itself(n) => Ok(Term::K(n)),
            Number::Symbol(i) => address_of(hole_at(self.holes, i), i),
        }
    }

    /// The constant that a symbol stands for.
    pub fn constant(self, i: u8) -> Result<Term, Refusal>
        ensures { Judges shape_of result (constant_of (hole_at self.entry.holes.now i) i) }
    {
        constant_of(hole_at(self.holes, i), i)
    }

    /// What `%0` holds, where it is a register with a value.
    pub fn own_value(self, zero: &Option<Box<Term>>) -> Result<Box<Term>, Refusal>
        ensures { Judges held result (own_value self.entry.setting.own (term_of zero.now)) }
    {
        own_value(self.alloc, self.setting.own, zero)
    }

    /// The value of the register with this number among the holes, `%0` if it is 0.
    pub fn register_term(self, zero: &Option<Box<Term>>, i: u8) -> Result<Box<Term>, Refusal>
        ensures { Judges held result (register_term self.entry.setting self.entry.holes.now (term_of zero.now) i) }
    {
        if i == 0 {
            return self.own_value(zero);
        }
        Ok(boxed(self.alloc, register_of(hole_at(self.holes, i), i)?)?)
    }

    // The sum of a number and a register.
    fn displaced(
        self,
        zero: &Option<Box<Term>>,
        number: Number,
        i: u8,
    ) -> Result<Box<Term>, Refusal>
        ensures { Judges held result (sum_of self.entry.setting self.entry.holes.now zero.now number i) }
    {
        let d = boxed(self.alloc, self.number_term(number)?)?;
        let r = self.register_term(zero, i)?;
        Ok(joined(self.alloc, BinaryOp::Add, d, r)?)
    }

    #[tactic(auto, unfolding(vax_templates::specs::Standing::where_base))]
    fn where_base(self, zero: &Option<Box<Term>>, base: Base) -> Result<Location, Refusal>
        ensures { Judges where_of result (where_base self.entry.setting self.entry.holes.now (term_of zero.now) base) }
    {
        match base {
            Base::RegisterZero => where_zero(self.setting.opening),
            Base::Hole(0) => where_own(self.setting.own),
            Base::Hole(i) => where_hole(self.alloc, hole_at(self.holes, i), i),
            Base::Immediate(number) => {
                let t = self.number_term(number)?;
                Ok(Location::Number(boxed(self.alloc, t)?))
            }
            Base::Negative(i) => {
                let t = unary(self.alloc, UnaryOp::Neg, self.constant(i)?)?;
                Ok(Location::Number(boxed(self.alloc, t)?))
            }
            Base::RegisterDeferred(i) => Ok(Location::At(self.register_term(zero, i)?, None)),
            Base::Displacement(number, i) => Ok(Location::At(
                self.displaced(zero, number, i)?,
                None,
            )),
            Base::DisplacementDeferred(number, i) => {
                let a = self.displaced(zero, number, i)?;
                Ok(through(self.alloc, a)?)
            }
            Base::Absolute(number) => {
                let a = self.absolute_term(number)?;
                Ok(Location::At(boxed(self.alloc, a)?, None))
            }
            Base::Deferred(i) => where_deferred(self.alloc, hole_at(self.holes, i), i),
        }
    }

    fn moved(self, size: Size, location: Location, x: Box<Term>) -> Result<Location, Refusal>
        ensures { Judges where_of result (moved size (where_of location) (shape_of x.value)) }
    {
        match location {
            Location::At(a, pointer) => match address_behind(self.alloc, size, a, x) {
                Ok(a) => Ok(Location::At(a, pointer)),
                Err(NoMemory) => Err(Refusal::NoMemory),
            },
            _ => Err(NOT_INSTR),
        }
    }

    /// Where an operand of this size stands, where `%0` holds this.
    #[tactic(auto, unfolding(vax_templates::specs::Standing::form_where))]
    pub fn form_where(
        self,
        zero: &Option<Box<Term>>,
        form: Form,
        size: Size,
    ) -> Result<Location, Refusal>
        ensures { Judges where_of result (form_where self.entry.setting self.entry.holes.now (term_of zero.now) form size) }
    {
        let location = self.where_base(zero, form.base)?;
        let Some(i) = form.index else {
            return Ok(location);
        };
        let x = self.register_term(zero, i)?;
        self.moved(size, location, x)
    }
}
