// Statements, from their first step on.

ghost use Rattle.std.specs.Prelude.{◌≡◌, ◌+◌, IfOk};
ghost use Rattle.c_program.specs.Statements.{optional_expression, act, acts};
ghost use Rattle.c_meaning.specs.declared.frame.Control.TheVariants as controls;
ghost use Rattle.c_meaning.specs.Values.{chosen, Look};
ghost use Rattle.c_meaning.specs.Blocks.{block_set};
ghost use Rattle.c_meaning.specs.Meaning.{local_set, look_at, turn_at, dropped, returned};
ghost use Rattle.c_meaning.specs.Runner.{Makes, Does, Performs, Blocks, GoesOn};
ghost use Rattle.c_meaning.specs.Pending.{program_of, tasks_of, going, with_flow};
ghost use Rattle.c_meaning.specs.Parts.{loop_of};
ghost use Rattle.c_meaning.specs.Work.{loop_work, again_to_do, maybe_work};
ghost use Rattle.c_meaning.specs.FrameWork.{control_work};

use crate::flow::{Event, Flow};
use crate::frame::{Control, FlowFrame, Frame, Loop, ValueFrame};
use crate::machine::Machine;
use crate::store::Spot;
use c_program::{Action, Declaration};
use c_types::{CType, Expression};
use gg_base::{Finish, NoMemory};

impl<'a> Machine<'a> {
    /// The first step of a statement.
    pub(crate) fn perform(&mut self, action: &'a Action) -> Result<Event, NoMemory>
        ensures { IfOk result (λ event. Performs self.old (act action.now) event self.new) }
    {
        match action {
            Action::Declare(declarations) => Ok(self.go(Control::Declare(declarations))),
            Action::Block(actions) => Ok(self.go(Control::Block(actions))),
            Action::Evaluate(e) => self.wait(ValueFrame::Forget, e),
            Action::Break => Ok(self.quit(Flow::Broke)),
            Action::Continue => Ok(self.quit(Flow::Continued)),
            Action::Return(value) => self.give_back(value),
            Action::If(c, a) => self.wait(ValueFrame::If(a), c),
            Action::IfElse(c, a, b) => self.wait(ValueFrame::IfElse(a, b), c),
            Action::While(c, body) => self.look(Loop {
                condition: Some(c),
                step: None,
                body,
            }),
            Action::Do(body, c) => self.turn(Loop {
                condition: Some(c),
                step: None,
                body,
            }),
            Action::For(first, c, step, body) => {
                let whole = Loop {
                    condition: c.as_ref(),
                    step: step.as_ref(),
                    body,
                };
                match first {
                    None => self.look(whole),
                    Some(e) => self.wait(ValueFrame::Look(whole), e),
                }
            }
        }
    }

    // A `return`, with its value if it has one.
    fn give_back(&mut self, value: &'a Option<Expression>) -> Result<Event, NoMemory>
        ensures { IfOk result (λ event. Makes self.old (λ κ. returned (program_of self.old)
            (tasks_of self.old) (optional_expression value.now) (with_flow κ)) (maybe_work (optional_expression value.now) + 2)
            event self.new) }
    {
        match value {
            None => Ok(self.quit(Flow::Returned(0))),
            Some(e) => self.wait(ValueFrame::Return, e),
        }
    }

    /// The first step of these statements: that of the first, which those behind it wait for.
    pub(crate) fn block(&mut self, actions: &'a [Action]) -> Result<Event, NoMemory>
        ensures { IfOk result (λ event. Blocks self.old (acts actions.now) event self.new) }
    {
        match actions.split_first() {
            None => Ok(self.quit(Flow::Onward)),
            Some((first, rest)) => {
                self.frames
                    .push(Frame::ForFlow(FlowFrame::Statements(rest)))?;
                self.perform(first)
            }
        }
    }

    /// The first of these declarations, before those behind it.
    pub(crate) fn declare(&mut self, declarations: &'a [Declaration]) -> Result<Event, NoMemory>
        ensures { IfOk result (λ event. Does self.old (controls.Declare declarations.entry) event self.new) }
    {
        match declarations.split_first() {
            None => Ok(self.quit(Flow::Onward)),
            Some((Declaration::Keep(_), rest)) => Ok(self.go(Control::Declare(rest))),
            Some((Declaration::Clear(local), rest)) => Ok(self.begin(*local, 0, rest)),
            Some((Declaration::Begin(local, e), rest)) => {
                if self.store.put_local(*local, 0) {
                    self.wait(ValueFrame::Begin(*local, rest), e)
                } else {
                    Ok(self.stop(Finish::Wild))
                }
            }
            Some((Declaration::Store(of, offset, e), rest)) => {
                self.wait(ValueFrame::Store(*of, *offset, rest), e)
            }
            Some((Declaration::Zeros(of, offset, count), rest)) => {
                if self.store.put_zeros(*of, *offset, *count) {
                    Ok(self.go(Control::Declare(rest)))
                } else {
                    Ok(self.stop(Finish::Wild))
                }
            }
        }
    }

    /// An automatic local becomes a value, and declarations follow.
    pub(crate) fn begin(&mut self, local: u32, value: u32, rest: &'a [Declaration]) -> Event
        ensures { Makes self.old (λ κ. local_set (program_of self.old) (tasks_of self.old) local value
            (going (program_of self.old) (controls.Declare rest.entry) κ))
            (control_work (controls.Declare rest.entry) + 1) result self.new }
    {
        if self.store.put_local(local, value) {
            self.go(Control::Declare(rest))
        } else {
            self.stop(Finish::Wild)
        }
    }

    /// What stands at an offset of the block becomes a value, and declarations follow.
    pub(crate) fn store_in_block(
        &mut self,
        of: CType,
        offset: u32,
        value: u32,
        rest: &'a [Declaration],
    ) -> Event
        ensures { Makes self.old (λ κ. block_set of offset value (going (program_of self.old) (controls.Declare rest.entry) κ))
            (control_work (controls.Declare rest.entry) + 1) result self.new }
    {
        if self.store.put(of, Spot::InBlock(offset), value) {
            self.go(Control::Declare(rest))
        } else {
            self.stop(Finish::Wild)
        }
    }

    /// What is done behind a condition.
    pub(crate) fn choose(&mut self, value: u32, yes: Control<'a>, no: Control<'a>) -> Event
        ensures { Makes self.old (λ κ st. chosen value (going (program_of self.old) yes.entry κ st)
            (going (program_of self.old) no.entry κ st)) (control_work yes.entry + control_work no.entry + 1) result self.new }
    {
        self.go(if value == 0 { no } else { yes })
    }

    /// A look at a loop's condition, if it has one.
    pub(crate) fn look(&mut self, at: Loop<'a>) -> Result<Event, NoMemory>
        ensures { IfOk result (λ event. Makes self.old (λ κ. look_at (program_of self.old)
            (tasks_of self.old) (loop_of at.entry) (with_flow κ)) (loop_work (loop_of at.entry)) event self.new) }
    {
        match at.condition {
            None => self.turn(at),
            Some(c) => self.wait(ValueFrame::Test(at), c),
        }
    }

    /// A turn of a loop is counted, and begins.
    pub(crate) fn turn(&mut self, of: Loop<'a>) -> Result<Event, NoMemory>
        ensures { IfOk result (λ event. Makes self.old (λ κ. turn_at (program_of self.old)
            (tasks_of self.old) (loop_of of.entry) (with_flow κ)) 0 event self.new) }
    {
        self.count(
            Frame::ForFlow(FlowFrame::Turn(of)),
            Control::Perform(of.body),
        )
    }

    /// A frame, which is off the list, is told how a statement was left.
    pub(crate) fn go_on(&mut self, frame: FlowFrame<'a>, flow: Flow) -> Result<Event, NoMemory>
        ensures { IfOk result (λ event. GoesOn self.old frame.entry flow event self.new) }
    {
        match frame {
            FlowFrame::Statements(rest) => match flow {
                Flow::Onward => self.block(rest),
                Flow::Broke => Ok(self.quit(Flow::Broke)),
                Flow::Continued => Ok(self.quit(Flow::Continued)),
                Flow::Returned(value) => Ok(self.quit(Flow::Returned(value))),
            },
            FlowFrame::Turn(of) => match flow {
                Flow::Onward => self.again(of),
                Flow::Broke => Ok(self.quit(Flow::Onward)),
                Flow::Continued => self.again(of),
                Flow::Returned(value) => Ok(self.quit(Flow::Returned(value))),
            },
        }
    }

    // What is done behind a turn, and then the next look.
    fn again(&mut self, of: Loop<'a>) -> Result<Event, NoMemory>
        ensures { IfOk result (λ event. Makes self.old (λ κ. dropped (program_of self.old)
            (tasks_of self.old) (loop_of of.entry).step
            (tasks_of self.old (Look (loop_of of.entry)) (with_flow κ))) (again_to_do (loop_of of.entry)) event self.new) }
    {
        match of.step {
            None => self.look(of),
            Some(e) => self.wait(ValueFrame::Look(of), e),
        }
    }
}
