// The machine that runs a program by a work list.

ghost use Rattle.std.specs.Prelude.{◌≡◌, IfOk};
ghost use Rattle.gg_base.specs.Runs.{stop, emit, counted};
ghost use Rattle.c_program.specs.Programs.{program as plain};
ghost use Rattle.c_meaning.specs.Programs.{source};
ghost use Rattle.c_meaning.specs.declared.frame.Control.TheVariants as controls;
ghost use Rattle.c_meaning.specs.declared.frame.Frame.TheVariants as frames;
ghost use Rattle.gg_base.specs.Turns.{end_of};
ghost use Rattle.c_meaning.specs.Pending.{Leaves, before, program_of, to_come, with_value};
ghost use Rattle.c_meaning.specs.Runner.{Makes, Steps, Does, Goes, Waiting, Counts, Reaches};

use crate::current::Current;
use crate::flow::{Event, Flow};
use crate::frame::{Control, Frame, ValueFrame};
use crate::store::{Activation, Store, zeros};
use c_program::Program;
use c_types::Expression;
use gg_base::{Finish, NoMemory};
use std::alloc::Global;
use tree_core::area::opening;

/// A run that goes on: its program, what is done now, what waits for it, the last first to go on, and what the program
/// reads and changes.
#[derive(Drop)]
pub(crate) struct Machine<'a> {
    pub(crate) program: &'a Program,
    pub(crate) control: Current<'a>,
    pub(crate) frames: Vec<Frame<'a>>,
    pub(crate) store: Store<'a>,
}

impl<'a> Machine<'a> {
    /// The machine at the begin of a program.
    pub(crate) fn new(
        alloc: Global,
        program: &'a Program,
        input: &'a [u8],
    ) -> Result<Machine<'a>, NoMemory>
        ensures { IfOk result (λ m. to_come m ≡ source (plain program.now) input.now) }
    {
        let area = opening(alloc, program.objects.as_slice())?;
        match program.routines.get(program.main) {
            None => Ok(Machine {
                program,
                control: Current::of(Control::Stop(Finish::Wild)),
                frames: Vec::new(alloc),
                store: Store::begin(alloc, Vec::new(alloc), area, input),
            }),
            Some(main) => {
                let locals = zeros(alloc, main.locals.as_slice().len())?;
                let mut frames = Vec::new(alloc);
                frames.push(Frame::ForCall(Activation::empty(alloc), 0, main.block))?;
                let mut store = Store::begin(alloc, locals, area, input);
                match store.claim(program.objects.as_slice(), main.block) {
                    Ok(()) => Ok(Machine {
                        program,
                        control: Current::of(Control::Block(&main.body)),
                        frames,
                        store,
                    }),
                    Err(finish) => Ok(Machine {
                        program,
                        control: Current::of(Control::Stop(finish)),
                        frames,
                        store,
                    }),
                }
            }
        }
    }

    /// The steps up to the next that shows.
    pub(crate) fn advance(&mut self, alloc: Global) -> Result<Event, NoMemory>
        ensures { IfOk result (λ event. Reaches self.old event self.new) }
    {
        loop {
            let event = self.step(alloc)?;
            match event {
                Event::Quiet => {}
                _ => return Ok(event),
            }
        }
    }

    fn step(&mut self, alloc: Global) -> Result<Event, NoMemory>
        ensures { IfOk result (λ event. Steps self.old event self.new) }
    {
        match self.control.get() {
            Control::Evaluate(e) => self.evaluate(alloc, e),
            Control::Perform(action) => self.perform(action),
            Control::Block(actions) => self.block(actions),
            Control::Declare(declarations) => self.declare(declarations),
            Control::Value(value) => self.receive(alloc, value),
            Control::Left(flow) => self.leave(flow),
            Control::Stop(finish) => Ok(Event::Stopped(finish)),
        }
    }

    // A value goes to what waits last.
    fn receive(&mut self, alloc: Global, value: u32) -> Result<Event, NoMemory>
        ensures { IfOk result (λ event. Does self.old (controls.Value value) event self.new) }
    {
        match self.frames.pop() {
            None => Ok(self.stop(Finish::Ended(value))),
            Some(Frame::ForValue(frame)) => self.resume(frame, value),
            Some(Frame::ForArgument(callee, done, to, rest)) => self.pass(
                alloc, callee, done, to, rest, value,
            ),
            Some(Frame::ForFlow(_)) => Ok(self.give(value)),
            Some(Frame::ForCall(_, _, _)) => Ok(self.give(value)),
        }
    }

    // What waits last is told how a statement was left.
    fn leave(&mut self, flow: Flow) -> Result<Event, NoMemory>
        ensures { IfOk result (λ event. Does self.old (controls.Left flow) event self.new) }
    {
        match self.frames.pop() {
            None => Ok(self.stop(Finish::Ended(flow.answer()))),
            Some(Frame::ForFlow(frame)) => self.go_on(frame, flow),
            Some(Frame::ForCall(caller, active, block)) => {
                Ok(self.end_call(caller, active, block, flow))
            }
            Some(Frame::ForValue(_)) => Ok(self.quit(flow)),
            Some(Frame::ForArgument(_, _, _, _)) => Ok(self.quit(flow)),
        }
    }

    // A call with a block of so many bytes is left so, and its caller goes on.
    fn end_call(&mut self, caller: Activation, active: u32, block: u32, flow: Flow) -> Event
        ensures { Makes self.old (λ κ. before (program_of self.old)
            (frames.ForCall caller active block) κ (Leaves flow)) 2 result self.new }
    {
        let program = self.program;
        if self.store.release(program.objects.as_slice(), block) {
            self.store.leave(caller, active);
            self.give(flow.answer())
        } else {
            self.stop(Finish::Wild)
        }
    }

    /// This is done next.
    pub(crate) fn go(&mut self, control: Control<'a>) -> Event
        ensures { Goes self.old control.entry result self.new }
    {
        self.control = Current::of(control);
        Event::Quiet
    }

    /// The value goes to what waits last.
    pub(crate) fn give(&mut self, value: u32) -> Event
        ensures { Goes self.old (controls.Value value) result self.new }
    {
        self.go(Control::Value(value))
    }

    /// A statement is left so.
    pub(crate) fn quit(&mut self, flow: Flow) -> Event
        ensures { Goes self.old (controls.Left flow) result self.new }
    {
        self.go(Control::Left(flow))
    }

    /// The run ends here.
    pub(crate) fn stop(&mut self, finish: Finish) -> Event
        ensures { Goes self.old (controls.Stop finish) result self.new }
    {
        self.go(Control::Stop(finish))
    }

    /// An expression is evaluated next, for whose value a frame waits.
    pub(crate) fn wait(
        &mut self,
        frame: ValueFrame<'a>,
        e: &'a Expression,
    ) -> Result<Event, NoMemory>
        ensures { IfOk result (λ event.
            Waiting self.old (frames.ForValue frame.entry) (controls.Evaluate e.entry) event self.new) }
    {
        self.watch(Frame::ForValue(frame), e)
    }

    /// An expression is evaluated next, and any frame waits for it.
    pub(crate) fn watch(&mut self, frame: Frame<'a>, e: &'a Expression) -> Result<Event, NoMemory>
        ensures { IfOk result (λ event. Waiting self.old frame.entry (controls.Evaluate e.entry) event self.new) }
    {
        self.frames.push(frame)?;
        self.control = Current::of(Control::Evaluate(e));
        Ok(Event::Quiet)
    }

    /// A turn or call is counted, with which something is done next, and a frame waits until it is left.
    pub(crate) fn count(
        &mut self,
        frame: Frame<'a>,
        control: Control<'a>,
    ) -> Result<Event, NoMemory>
        ensures { IfOk result (λ event. Counts self.old frame.entry control.entry event self.new) }
    {
        self.frames.push(frame)?;
        self.control = Current::of(control);
        Ok(Event::Counted)
    }

    /// A byte is written, which is the value.
    pub(crate) fn write(&mut self, byte: u8) -> Event
        ensures { Makes self.old (λ κ st. emit byte (with_value κ byte st)) 0 result self.new }
    {
        self.control = Current::of(Control::Value(u32::from(byte)));
        Event::Wrote(byte)
    }

    /// A call is counted, and the run ends there.
    pub(crate) fn count_end(&mut self, finish: Finish) -> Event
        ensures { Makes self.old (λ κ st. counted (stop (end_of finish))) 0 result self.new }
    {
        self.control = Current::of(Control::Stop(finish));
        Event::Counted
    }
}
