// Calls: arguments, functions and services.

ghost use Rattle.std.specs.Prelude.{◌≡◌, ◌+◌, ◌++◌, ◌∷◌, IfOk};
ghost use Rattle.c_types.specs.Typed.{expressions_of};
ghost use Rattle.c_meaning.specs.Meaning.{arguments};
ghost use Rattle.c_meaning.specs.Calls.{passed, call, called, put_char, got};
ghost use Rattle.std.specs.Prelude.{slice_get};
ghost use Rattle.c_meaning.specs.Runner.{Makes};
ghost use Rattle.c_meaning.specs.Pending.{program_of, tasks_of, with_value};
ghost use Rattle.c_meaning.specs.Work.{arguments_work};

use crate::flow::Event;
use crate::frame::{Control, Frame};
use crate::machine::Machine;
use crate::store::{Activation, zeros};
use c_program::Routine;
use c_types::constant::convert;
use c_types::{CType, Callee, Expression};
use gg_base::limits::ACTIVE_CALL_LIMIT;
use gg_base::{Finish, NoMemory};
use std::alloc::Global;

impl<'a> Machine<'a> {
    /// Evaluates the next argument of a call, or begins the call.
    pub(crate) fn argue(
        &mut self,
        alloc: Global,
        callee: Callee,
        done: Vec<u32>,
        to: &'a [CType],
        rest: &'a [Expression],
    ) -> Result<Event, NoMemory>
        ensures { IfOk result (λ event. Makes self.old (λ κ. arguments (program_of self.old)
            (tasks_of self.old) (expressions_of rest.now) to.now
            (λ vs. call (program_of self.old) (tasks_of self.old) callee (done.items ++ vs)
            (with_value κ))) (arguments_work (expressions_of rest.now)) event self.new) }
    {
        match rest.split_first() {
            None => self.call(alloc, callee, done),
            Some((first, rest)) => self.watch(Frame::ForArgument(callee, done, to, rest), first),
        }
    }

    /// Goes on with a further argument, which is converted to its parameter's type.
    pub(crate) fn pass(
        &mut self,
        alloc: Global,
        callee: Callee,
        done: Vec<u32>,
        to: &'a [CType],
        rest: &'a [Expression],
        value: u32,
    ) -> Result<Event, NoMemory>
        ensures { IfOk result (λ event. Makes self.old (λ κ. passed to.now value
            (λ x ts. arguments (program_of self.old) (tasks_of self.old) (expressions_of rest.now) ts
            (λ vs. call (program_of self.old) (tasks_of self.old) callee (done.items ++ x ∷ vs)
            (with_value κ)))) (arguments_work (expressions_of rest.now) + 1) event self.new) }
    {
        match to.split_first() {
            None => Ok(self.stop(Finish::Wild)),
            Some((first, to)) => {
                let mut done = done;
                done.push(convert(*first, value))?;
                self.argue(alloc, callee, done, to, rest)
            }
        }
    }

    fn call(&mut self, alloc: Global, callee: Callee, values: Vec<u32>) -> Result<Event, NoMemory>
        ensures { IfOk result (λ event. Makes self.old (λ κ. call (program_of self.old)
            (tasks_of self.old) callee values.items (with_value κ)) 2 event self.new) }
    {
        match callee {
            Callee::Defined(number) => {
                match self.program.routines.get(number as usize) {
                    None => Ok(self.stop(Finish::Wild)),
                    Some(function) => self.enter(alloc, function, values),
                }
            }
            Callee::Putchar => Ok(self.put_char(&values)),
            Callee::Getchar => Ok(self.get_char()),
        }
    }

    // A call of a function is counted, and begins unless `ACTIVE_CALL_LIMIT` calls are active.
    fn enter(
        &mut self,
        alloc: Global,
        function: &'a Routine,
        values: Vec<u32>,
    ) -> Result<Event, NoMemory>
        ensures { IfOk result (λ event. Makes self.old (λ κ. called self.old.program.now.objects (Some (routine function.now))
            (tasks_of self.old) values.items (with_value κ)) 2 event self.new) }
    {
        let active = self.store.active;
        if active < ACTIVE_CALL_LIMIT {
            let locals = zeros(alloc, function.locals.as_slice().len())?;
            let caller = self.store.enter(Activation {
                locals,
                parameters: values,
                block: None,
            });
            let program = self.program;
            match self.store.claim(program.objects.as_slice(), function.block) {
                Ok(()) => self.count(
                    Frame::ForCall(caller, active, function.block),
                    Control::Block(&function.body),
                ),
                Err(finish) => Ok(self.count_end(finish)),
            }
        } else {
            Ok(self.count_end(Finish::Deep))
        }
    }

    // `putchar` writes the low byte of its argument, which is its value.
    fn put_char(&mut self, values: &[u32]) -> Event
        ensures { Makes self.old (λ κ. put_char values.now (with_value κ)) 2 result self.new }
    {
        match values.split_first() {
            None => self.stop(Finish::Wild),
            Some((value, _)) => self.write((*value % 0x100) as u8),
        }
    }

    fn get_char(&mut self) -> Event
        ensures { Makes self.old (λ κ st. got st.input (with_value κ) st) 2 result self.new }
    {
        let value = self.store.get();
        self.give(value)
    }
}

ghost use Rattle.std.specs.Prelude.{Some};
ghost use Rattle.c_program.specs.Programs.{routine};
