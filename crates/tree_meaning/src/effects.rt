// What roots do.

ghost use Rattle.std.specs.Prelude.{IfOk};
ghost use Rattle.tree_meaning.specs.Deeds.{Pushes, Returns, given, assigned, branched, jumped_by, saved, called_by, deed_of};
ghost use Rattle.tree_meaning.specs.State.{sight};
ghost use Rattle.tree_meaning.specs.Steps.{put, entered, wrote, got, served, called_with};
ghost use Rattle.tree_meaning.specs.View.{state, StepsBy, Does};

use crate::frame::Frame;
use crate::machine::Machine;
use crate::progress::Progress;
use crate::value::{Meaning, Value};
use gg_base::limits::ACTIVE_CALL_LIMIT;
use gg_base::{Finish, NoMemory};
use std::alloc::Global;
use std::mem;
use tree_core::area::store;
use tree_core::{Att, Leaf, Tok, TreeFn};

impl<'a> Machine<'a> {
    /// Does the effect of a root, over what its kids stand for.
    pub(crate) fn act(
        &mut self,
        alloc: Global,
        root: Leaf,
        first: Option<Meaning>,
        second: Option<Meaning>,
    ) -> Result<Progress, NoMemory>
        ensures { IfOk result (λ done. Does self.old (deed_of (sight (state self.old)) root.tok root.att first second) done self.new) }
    {
        match root.tok {
            Tok::AssignB | Tok::AssignW | Tok::AssignL => {
                let value = self.kid(second);
                self.assign(first, value)
            }
            Tok::Cbr => {
                let v = self.kid(first);
                let w = self.kid(second);
                Ok(self.branch(root.att, v, w))
            }
            Tok::Push => {
                let value = self.kid(first);
                self.push(value)
            }
            Tok::Ret => {
                let value = self.kid(first);
                Ok(self.give_back(value))
            }
            Tok::Call => self.call(alloc, root.att),
            Tok::Save => self.save(root.att),
            Tok::Jump => Ok(self.jump(root.att)),
            _ => Ok(Progress::Ends(Finish::Wild)),
        }
    }

    // A number is put where a place is, which is tested now.
    fn put(&mut self, place: Meaning, number: u32) -> Result<Progress, NoMemory>
        ensures { IfOk result (λ done. StepsBy self.old.program.now (put (state self.old) place number) done self.new) }
    {
        match place {
            Meaning::Of(_) => return Ok(Progress::Ends(Finish::Wild)),
            Meaning::Local(local) => self.running.set_local(local, number)?,
            Meaning::Argument(argument) => self.running.set_argument(argument, number),
            Meaning::Memory(size, address) => {
                if !store(&mut self.area, size, address, number) {
                    return Ok(Progress::Ends(Finish::Wild));
                }
            }
        }
        Ok(Progress::Goes)
    }

    fn assign(&mut self, place: Option<Meaning>, value: Value) -> Result<Progress, NoMemory>
        ensures { IfOk result (λ done. Does self.old (assigned place value) done self.new) }
    {
        match place {
            None => Ok(Progress::Ends(Finish::Wild)),
            Some(Meaning::Of(Value::ZeroDivisor)) => Ok(Progress::Ends(Finish::Trapped)),
            Some(Meaning::Of(Value::Number(_) | Value::Wild)) => Ok(Progress::Ends(Finish::Wild)),
            Some(place) => match value {
                Value::Number(number) => self.put(place, number),
                Value::ZeroDivisor => Ok(Progress::Ends(Finish::Trapped)),
                Value::Wild => Ok(Progress::Ends(Finish::Wild)),
            },
        }
    }

    fn branch(&mut self, att: Att, v: Value, w: Value) -> Progress
        ensures { Does self.old (branched att v w) result self.new }
    {
        match att {
            Att::Branch { rel, label } => match (v, w) {
                (Value::Number(x), Value::Number(y)) => {
                    if rel.holds(x, y) {
                        self.running.jump(label);
                    }
                    Progress::Goes
                }
                (Value::Number(_), Value::ZeroDivisor) => Progress::Ends(Finish::Trapped),
                (Value::Number(_), Value::Wild) => Progress::Ends(Finish::Wild),
                (Value::ZeroDivisor, _) => Progress::Ends(Finish::Trapped),
                (Value::Wild, _) => Progress::Ends(Finish::Wild),
            },
            _ => Progress::Ends(Finish::Wild),
        }
    }

    fn push(&mut self, value: Value) -> Result<Progress, NoMemory>
        ensures { IfOk result (λ done. Does self.old (given value Pushes) done self.new) }
    {
        match value {
            Value::Number(number) => {
                self.running.push(number)?;
                Ok(Progress::Goes)
            }
            Value::ZeroDivisor => Ok(Progress::Ends(Finish::Trapped)),
            Value::Wild => Ok(Progress::Ends(Finish::Wild)),
        }
    }

    fn give_back(&mut self, value: Value) -> Progress
        ensures { Does self.old (given value Returns) result self.new }
    {
        match value {
            Value::Number(number) => self.leave(number),
            Value::ZeroDivisor => Progress::Ends(Finish::Trapped),
            Value::Wild => Progress::Ends(Finish::Wild),
        }
    }

    fn save(&mut self, att: Att) -> Result<Progress, NoMemory>
        ensures { IfOk result (λ done. Does self.old (saved att) done self.new) }
    {
        match att {
            Att::Slot(local) => self.put(Meaning::Local(local), self.running.result),
            _ => Ok(Progress::Ends(Finish::Wild)),
        }
    }

    fn jump(&mut self, att: Att) -> Progress
        ensures { Does self.old (jumped_by att) result self.new }
    {
        match att {
            Att::Label(label) => {
                self.running.jump(label);
                Progress::Goes
            }
            _ => Progress::Ends(Finish::Wild),
        }
    }

    fn call(&mut self, alloc: Global, att: Att) -> Result<Progress, NoMemory>
        ensures { IfOk result (λ done. Does self.old (called_by att) done self.new) }
    {
        match att {
            Att::Callee { function, count } => {
                let arguments = self.running.take_pushed(count)?;
                self.call_with(alloc, function, arguments)
            }
            _ => Ok(Progress::Ends(Finish::Wild)),
        }
    }

    fn call_with(
        &mut self,
        alloc: Global,
        function: u32,
        arguments: Vec<u32>,
    ) -> Result<Progress, NoMemory>
        ensures { IfOk result (λ done.
            StepsBy self.old.program.now (called_with self.old.program.now (state self.old) function arguments.items) done self.new) }
    {
        let functions = self.program.functions.as_slice();
        match functions.get(function as usize) {
            Some(called) => self.enter(alloc, called, arguments),
            None => Ok(self.serve(function as usize - functions.len(), &arguments)),
        }
    }

    // A function of the program begins, unless `ACTIVE_CALL_LIMIT` calls are active.
    fn enter(
        &mut self,
        alloc: Global,
        function: &'a TreeFn,
        arguments: Vec<u32>,
    ) -> Result<Progress, NoMemory>
        ensures { IfOk result (λ done. StepsBy self.old.program.now (entered (state self.old) function.now arguments.items) done self.new) }
    {
        if 1 + self.callers.len() < ACTIVE_CALL_LIMIT as usize {
            let begun = Frame::begin(alloc, function, arguments);
            let caller = mem::replace(&mut self.running, begun);
            self.callers.push(caller)?;
            Ok(Progress::Goes)
        } else {
            Ok(Progress::Ends(Finish::Deep))
        }
    }

    // `putchar` is the service 0, and `getchar` the service 1.
    fn serve(&mut self, service: usize, arguments: &[u32]) -> Progress
        ensures { StepsBy self.old.program.now (served (state self.old) service arguments.now) result self.new }
    {
        match service {
            0 => self.write(arguments.first().copied()),
            1 => self.get(),
            _ => Progress::Ends(Finish::Wild),
        }
    }

    // The low byte of the argument is written, and is the result.
    fn write(&mut self, argument: Option<u32>) -> Progress
        ensures { StepsBy self.old.program.now (wrote (state self.old) argument) result self.new }
    {
        match argument {
            Some(value) => {
                let byte = (value % 0x100) as u8;
                self.running.result = u32::from(byte);
                Progress::Wrote(byte)
            }
            None => Progress::Ends(Finish::Wild),
        }
    }

    // The next byte of the input, or -1 at its end, is the result.
    fn get(&mut self) -> Progress
        ensures { StepsBy self.old.program.now (got (state self.old) (state self.old).input) result self.new }
    {
        match self.input.split_first() {
            Some((byte, rest)) => {
                self.running.result = u32::from(*byte);
                self.input = rest;
            }
            None => self.running.result = u32::MAX,
        }
        Progress::Goes
    }
}
