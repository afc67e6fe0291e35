// The machine that runs a tree program.

ghost use Rattle.std.specs.Prelude.{◌≡◌, ◌+◌, IfOk, IfErr, MatchOption, length};
ghost use Rattle.std.specs.Option.{option_copied};
ghost use Rattle.gg_base.specs.declared.run.Finish.TheVariants.{Wild};
ghost use Rattle.tree_core.specs.Trees.{grown};
ghost use Rattle.tree_meaning.specs.State.{arrived, over};
ghost use Rattle.tree_meaning.specs.Steps.{GoesBack, tree_step};
ghost use Rattle.tree_meaning.specs.Meaning.{main_of, first_at};
ghost use Rattle.tree_meaning.specs.Turns.{GoesOn};
ghost use Rattle.tree_meaning.specs.View.{state, turn_by, StepsBy, Arrives};

use crate::frame::{Frame, next_root};
use crate::progress::Progress;
use crate::reading::take_kids;
use gg_base::{Finish, NoMemory};
use std::alloc::Global;
use tree_core::area::opening;
use tree_core::{Leaf, TreeFn, TreeProgram};

/// A run of a tree program that goes on: the innermost call, those that wait for it, the last caller
/// last, the data area, and the input that is left.
#[derive(Drop)]
pub(crate) struct Machine<'a> {
    pub(crate) program: &'a TreeProgram,
    pub(crate) running: Frame<'a>,
    pub(crate) callers: Vec<Frame<'a>>,
    pub(crate) area: Vec<u8>,
    pub(crate) input: &'a [u8],
}

impl<'a> Machine<'a> {
    /// The machine at the begin of a program; none where no function is called main.
    pub(crate) fn new(
        alloc: Global,
        program: &'a TreeProgram,
        input: &'a [u8],
    ) -> Result<Option<Machine<'a>>, NoMemory>
        ensures { IfOk result (λ machine. MatchOption machine (first_at program.now input.now ≡ over Wild)
            (λ m. (arrived (state m) ≡ first_at program.now input.now) × (m.program.now ≡ program.now))) }
    {
        let Some(main) = main_of(program.functions.as_slice()) else {
            return Ok(None);
        };
        let area = opening(alloc, program.objects.as_slice())?;
        Ok(Some(Machine {
            program,
            running: Frame::begin(alloc, main, Vec::new(alloc)),
            callers: Vec::new(alloc),
            area,
            input,
        }))
    }

    /// Comes to the next tree, leaving calls whose items have ended; or to the end.
    pub(crate) fn arrive(&mut self) -> Result<&'a [Leaf], Finish>
        ensures tree { IfOk result (λ leaves. Arrives self.old leaves.now self.new) }
        ensures end { IfErr result (λ end. arrived (state self.old) ≡ over end) }
    {
        loop {
            if let Some((leaves, rest)) = next_root(self.running.rest) {
                self.running.rest = rest;
                return Ok(leaves);
            }
            if let Progress::Ends(end) = self.leave(0) {
                return Err(end);
            }
        }
    }

    /// Does the effect of a tree.
    pub(crate) fn step(&mut self, alloc: Global, leaves: &'a [Leaf]) -> Result<Progress, NoMemory>
        ensures { IfOk result (λ done. StepsBy self.old.program.now (tree_step self.old.program.now (state self.old)
            (grown leaves.now)) done self.new) }
    {
        let Some((root, kids)) = leaves.split_first() else {
            return Ok(Progress::Ends(Finish::Wild));
        };
        let mut stack = self.meanings(alloc, kids)?;
        let (first, second) = take_kids(&mut stack, root.tok.kids().len());
        self.act(alloc, *root, first, second)
    }

    /// Leaves the innermost call with a result, which is the run's where no call waits for it.
    pub(crate) fn leave(&mut self, value: u32) -> Progress
        ensures steps { StepsBy self.old.program.now (GoesBack value (state self.old)) result self.new }
        ensures fewer { GoesOn (turn_by result) → length self.new.callers.items + 1 ≡ length self.old.callers.items }
    {
        match self.callers.pop() {
            Some(caller) => {
                self.running = caller;
                self.running.result = value;
                Progress::Goes
            }
            None => Progress::Ends(Finish::Ended(value)),
        }
    }
}

// The function called main.
fn main_of(functions: &[TreeFn]) -> Option<&TreeFn>
    ensures { option_copied result ≡ main_of functions.now }
{
    functions
        .iter()
        .find(|function| function.name.as_slice() == b"main".as_slice())
}
