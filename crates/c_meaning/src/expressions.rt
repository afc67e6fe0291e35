// Expressions, from their first step on.

ghost use Rattle.std.specs.Prelude.{◌≡◌, ◌+◌, IfOk};
ghost use Rattle.c_meaning.specs.declared.frame.Control.TheVariants as controls;
ghost use Rattle.c_types.specs.Typed.{expression_of};
ghost use Rattle.c_meaning.specs.State.{address};
ghost use Rattle.c_meaning.specs.Values.{or_wild, or_trap, array_address, address_of};
ghost use Rattle.c_meaning.specs.Meaning.{expr};
ghost use Rattle.c_meaning.specs.Runner.{Makes, Does, Resumes};
ghost use Rattle.c_meaning.specs.Pending.{program_of, tasks_of, before, with_value};
ghost use Rattle.c_meaning.specs.Work.{expression_work};
ghost use Rattle.c_meaning.specs.declared.frame.Frame.TheVariants as frames;
ghost use Rattle.c_meaning.specs.declared.frame.ValueFrame.TheVariants as waiting;

use crate::flow::{Event, Flow};
use crate::frame::{Control, Use, ValueFrame};
use crate::machine::Machine;
use crate::operator::{Operator, logical};
use crate::store::{Spot, address, spot_of};
use c_types::constant::{apply_unary, convert};
use c_types::{Expression, Variable};
use gg_base::{Finish, NoMemory};
use std::alloc::Global;

impl<'a> Machine<'a> {
    /// The first step of an expression.
    pub(crate) fn evaluate(&mut self, alloc: Global, e: &'a Expression) -> Result<Event, NoMemory>
        ensures { IfOk result (λ event. Does self.old (controls.Evaluate e.entry) event self.new) }
    {
        match e {
            Expression::Number(value) => Ok(self.give(*value)),
            Expression::Literal(object, _) => Ok(self.address_of_object(*object)),
            Expression::Array(_, variable, _) => Ok(self.address_of_variable(*variable)),
            Expression::Read(place) => self.find(place, Use::Read),
            Expression::SizeofExpression(size, _) => Ok(self.give(*size)),
            Expression::SizeofType(size) => Ok(self.give(*size)),
            Expression::Address(_, place) => self.find(place, Use::Address),
            Expression::Call(_, callee, to, arguments) => {
                self.argue(alloc, *callee, Vec::new(alloc), to.as_slice(), arguments)
            }
            Expression::Step(moment, by, place) => self.find(place, Use::Step(*moment, *by)),
            Expression::Unary(op, a) => self.wait(ValueFrame::Unary(*op), a),
            Expression::Cast(to, a) => self.wait(ValueFrame::Convert(*to), a),
            Expression::Convert(to, a) => self.wait(ValueFrame::Convert(*to), a),
            Expression::Arithmetic(op, a, b) => self.operands(Operator::Arithmetic(*op), a, b),
            Expression::Compare(rel, a, b) => self.operands(Operator::Compare(*rel), a, b),
            Expression::AndAnd(a, b) => self.wait(ValueFrame::AndRight(b), a),
            Expression::OrOr(a, b) => self.wait(ValueFrame::OrRight(b), a),
            Expression::Advance(of, a, b) => self.operands(Operator::Advance(*of), a, b),
            Expression::AdvanceBy(of, a, b) => self.operands(Operator::AdvanceBy(*of), a, b),
            Expression::Retreat(of, a, b) => self.operands(Operator::Retreat(*of), a, b),
            Expression::Distance(of, a, b) => self.operands(Operator::Distance(*of), a, b),
            Expression::Choice(_, c, a, b) => self.wait(ValueFrame::Choose(a, b), c),
            Expression::Assign(place, b) => self.find(place, Use::Assign(b)),
            Expression::ArithmeticAssign(op, place, b) => self.find(place, Use::Change(*op, b)),
            Expression::AdvanceAssign(place, b) => self.find(place, Use::Advance(b)),
            Expression::RetreatAssign(place, b) => self.find(place, Use::Retreat(b)),
            Expression::Comma(_, a, b) => self.wait(ValueFrame::Comma(b), a),
        }
    }

    fn operands(
        &mut self,
        operator: Operator,
        left: &'a Box<Expression>,
        right: &'a Box<Expression>,
    ) -> Result<Event, NoMemory>
        ensures { IfOk result (λ event. Makes self.old (λ κ. expr (program_of self.old)
            (tasks_of self.old) (expression_of left.now.value) (with_value
            (before (program_of self.old) (frames.ForValue (waiting.Right operator right.entry)) κ)))
            (expression_work (expression_of left.now.value) + expression_work (expression_of right.now.value) + 2) event self.new) }
    {
        self.wait(ValueFrame::Right(operator, right), left)
    }

    fn address_of_object(&mut self, object: u32) -> Event
        ensures { Makes self.old (λ κ. or_wild (address self.old.program.now.objects object) (with_value κ)) 2 result self.new }
    {
        let found = address(self.program.objects.as_slice(), object);
        self.value_or_wild(found)
    }

    fn address_of_variable(&mut self, variable: Variable) -> Event
        ensures { Makes self.old (λ κ. array_address (program_of self.old) variable (with_value κ)) 2 result self.new }
    {
        let spot = spot_of(self.program.objects.as_slice(), variable);
        match spot {
            None => self.stop(Finish::Wild),
            Some(spot) => self.address_of(spot),
        }
    }

    /// The address of a place is the value.
    pub(crate) fn address_of(&mut self, spot: Spot) -> Event
        ensures { Makes self.old (λ κ. address_of spot (with_value κ)) 2 result self.new }
    {
        match spot {
            Spot::Local(_) => self.stop(Finish::Wild),
            Spot::Parameter(_) => self.stop(Finish::Wild),
            Spot::Memory(address) => self.give(address),
            Spot::InBlock(offset) => {
                let address = self.store.block_address(offset);
                self.value_or_wild(address)
            }
        }
    }

    /// The value, or a wild access where there is none.
    pub(crate) fn value_or_wild(&mut self, value: Option<u32>) -> Event
        ensures { Makes self.old (λ κ. or_wild value (with_value κ)) 2 result self.new }
    {
        match value {
            None => self.stop(Finish::Wild),
            Some(value) => self.give(value),
        }
    }

    /// The value, or a trap where there is none.
    fn value_or_trap(&mut self, value: Option<u32>) -> Event
        ensures { Makes self.old (λ κ. or_trap value (with_value κ)) 2 result self.new }
    {
        match value {
            None => self.stop(Finish::Trapped),
            Some(value) => self.give(value),
        }
    }

    /// A frame, which is off the list, is given a value.
    pub(crate) fn resume(&mut self, frame: ValueFrame<'a>, value: u32) -> Result<Event, NoMemory>
        ensures { IfOk result (λ event. Resumes self.old frame.entry value event self.new) }
    {
        match frame {
            ValueFrame::Unary(op) => Ok(self.give(apply_unary(op, value))),
            ValueFrame::Convert(to) => Ok(self.give(convert(to, value))),
            ValueFrame::Right(operator, right) => {
                self.wait(ValueFrame::Last(operator, value), right)
            }
            ValueFrame::Last(operator, left) => Ok(self.value_or_trap(operator.combine(
                left, value,
            ))),
            ValueFrame::AndRight(right) => {
                if value == 0 {
                    Ok(self.give(0))
                } else {
                    self.wait(ValueFrame::Truth, right)
                }
            }
            ValueFrame::OrRight(right) => {
                if value == 0 {
                    self.wait(ValueFrame::Truth, right)
                } else {
                    Ok(self.give(1))
                }
            }
            ValueFrame::Truth => Ok(self.give(logical(value))),
            ValueFrame::Choose(a, b) => Ok(self.go(Control::Evaluate(if value == 0 {
                b
            } else {
                a
            }))),
            ValueFrame::Comma(right) => Ok(self.go(Control::Evaluate(right))),
            ValueFrame::Found(of, then) => self.at(of, Spot::Memory(value), then),
            ValueFrame::Assign(of, spot) => Ok(self.assign(of, spot, value)),
            ValueFrame::Change(of, spot, operator, old) => Ok(self.change(
                of, spot, operator, old, value,
            )),
            ValueFrame::Forget => Ok(self.quit(Flow::Onward)),
            ValueFrame::Begin(local, rest) => Ok(self.begin(local, value, rest)),
            ValueFrame::Store(of, offset, rest) => Ok(self.store_in_block(of, offset, value, rest)),
            ValueFrame::If(a) => Ok(self.choose(
                value,
                Control::Perform(a),
                Control::Left(Flow::Onward),
            )),
            ValueFrame::IfElse(a, b) => Ok(self.choose(
                value,
                Control::Perform(a),
                Control::Perform(b),
            )),
            ValueFrame::Return => Ok(self.quit(Flow::Returned(value))),
            ValueFrame::Test(of) => {
                if value == 0 {
                    Ok(self.quit(Flow::Onward))
                } else {
                    self.turn(of)
                }
            }
            ValueFrame::Look(of) => self.look(of),
        }
    }
}
