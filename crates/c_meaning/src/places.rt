// Places: where they are, and what is done with them.

ghost use Rattle.std.specs.Prelude.{◌≡◌, ◌+◌, IfOk};
ghost use Rattle.c_types.specs.Typed.{place_of, expression_of};
ghost use Rattle.c_meaning.specs.Values.{read_at, store_at, or_trap, step_at, written};
ghost use Rattle.c_meaning.specs.Meaning.{expr, place};
ghost use Rattle.c_meaning.specs.Runner.{Makes};
ghost use Rattle.c_meaning.specs.Pending.{program_of, tasks_of, used, with_value};
ghost use Rattle.c_meaning.specs.Parts.{changed, combined};
ghost use Rattle.c_meaning.specs.FrameWork.{use_work};
ghost use Rattle.c_meaning.specs.Work.{place_work, expression_work};

use crate::flow::Event;
use crate::frame::{Control, Use, ValueFrame};
use crate::machine::Machine;
use crate::operator::{Operator, of_moment, stepped};
use crate::store::{Spot, spot_of};
use c_types::constant::convert;
use c_types::{CType, Direction, Expression, Moment, Place};
use gg_base::{Finish, NoMemory};

impl<'a> Machine<'a> {
    /// Finds a place, with which something is done then.
    pub(crate) fn find(&mut self, at: &'a Place, then: Use<'a>) -> Result<Event, NoMemory>
        ensures { IfOk result (λ event. Makes self.old (λ κ. place (program_of self.old)
            (tasks_of self.old) (place_of at.now) (λ t s.
            used (program_of self.old) then.entry t s (with_value κ)))
            (place_work (place_of at.now) + use_work then.entry) event self.new) }
    {
        match at {
            Place::Variable(of, variable) => {
                match spot_of(self.program.objects.as_slice(), *variable) {
                    None => Ok(self.stop(Finish::Wild)),
                    Some(spot) => self.at(*of, spot, then),
                }
            }
            Place::Indirection(of, a) => { self.wait(ValueFrame::Found(*of, then), a) }
            Place::Index(of, sum) => self.wait(ValueFrame::Found(*of, then), sum),
        }
    }

    /// Does something with a place that is found.
    pub(crate) fn at(&mut self, of: CType, spot: Spot, then: Use<'a>) -> Result<Event, NoMemory>
        ensures { IfOk result (λ event. Makes self.old (λ κ. used (program_of self.old) then.entry of spot
            (with_value κ)) (use_work then.entry) event self.new) }
    {
        match then {
            Use::Read => {
                let value = self.store.held(of, spot);
                Ok(self.value_or_wild(value))
            }
            Use::Address => Ok(self.address_of(spot)),
            Use::Step(moment, by) => Ok(self.step_at(of, spot, moment, by)),
            Use::Assign(b) => self.wait(ValueFrame::Assign(of, spot), b),
            Use::Change(op, b) => self.change_at(of, spot, Operator::Arithmetic(op), b),
            Use::Advance(b) => self.change_at(of, spot, Operator::Advance(of), b),
            Use::Retreat(b) => self.change_at(of, spot, Operator::Retreat(of), b),
        }
    }

    // A compound assignment: what the place holds is read, and then the right operand is evaluated.
    fn change_at(
        &mut self,
        of: CType,
        spot: Spot,
        operator: Operator,
        right: &'a Box<Expression>,
    ) -> Result<Event, NoMemory>
        ensures { IfOk result (λ event. Makes self.old (λ κ. read_at of spot
            (λ x. expr (program_of self.old) (tasks_of self.old) (expression_of right.now.value)
            (λ y. changed of spot operator x y (with_value κ)))) (expression_work (expression_of right.now.value) + 2) event self.new) }
    {
        match self.store.held(of, spot) {
            None => Ok(self.stop(Finish::Wild)),
            Some(old) => self.wait(ValueFrame::Change(of, spot, operator, old), right),
        }
    }

    fn step_at(&mut self, of: CType, spot: Spot, moment: Moment, by: Direction) -> Event
        ensures { Makes self.old (λ κ. step_at moment by of spot (with_value κ)) 2 result self.new }
    {
        match self.store.held(of, spot) {
            None => self.stop(Finish::Wild),
            Some(before) => {
                let after = convert(of, stepped(by, of, before));
                self.put_and_give(of, spot, after, of_moment(moment, before, after))
            }
        }
    }

    /// The last step of an assignment.
    pub(crate) fn assign(&mut self, of: CType, spot: Spot, value: u32) -> Event
        ensures { Makes self.old (λ κ. store_at of spot value (with_value κ)) 2 result self.new }
    {
        let kept = convert(of, value);
        self.put_and_give(of, spot, kept, kept)
    }

    /// The last step of a compound assignment.
    pub(crate) fn change(
        &mut self,
        of: CType,
        spot: Spot,
        operator: Operator,
        old: u32,
        right: u32,
    ) -> Event
        ensures { Makes self.old (λ κ. changed of spot operator old right (with_value κ)) 2 result self.new }
    {
        match operator.combine(old, right) {
            None => self.stop(Finish::Trapped),
            Some(value) => self.assign(of, spot, value),
        }
    }

    // A value is put into a place, and another one is the value then.
    fn put_and_give(&mut self, of: CType, spot: Spot, kept: u32, value: u32) -> Event
        ensures { Makes self.old (λ κ st. written (put of spot kept st) value (with_value κ)) 2 result self.new }
    {
        if self.store.put(of, spot, kept) {
            self.give(value)
        } else {
            self.stop(Finish::Wild)
        }
    }
}

ghost use Rattle.c_meaning.specs.State.{put};
