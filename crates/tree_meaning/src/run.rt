// The run of a tree program, event by event.

ghost use Rattle.std.specs.Prelude.{◌≡◌, ◌≤◌, true, false, IfOk, IfErr, IsErr};
ghost use Rattle.gg_base.specs.Runs.{OneEnd};
ghost use Rattle.gg_base.specs.Turns.{Answers};
ghost use Rattle.tree_meaning.specs.Meaning.{tree_run};
ghost use Rattle.tree_meaning.specs.Turns.{AdvancesTrees, tree_answers};
ghost use Rattle.tree_meaning.specs.View.{stage_by};

use crate::machine::Machine;
use crate::progress::Progress;
use gg_base::laws::lasting_is_enough;
use gg_base::{Finish, NoMemory, SourceTurn};
use std::alloc::Global;
use std::marker::Model;
use tree_core::TreeProgram;

/// A run of a tree program that still goes on, or is over.
#[derive(Drop)]
pub struct TreeRun<'a> {
    stage: Stage<'a>,
    left: u64,
    taken: u64,
    alloc: Global,
}

// Whether a run goes on; it doesn't at an end, once the number is used up, or once memory was wanting.
#[derive(Drop)]
enum Stage<'a> {
    Going(Machine<'a>),
    Over(Finish),
    Spent,
    Failed,
}

impl<'a> Stage<'a> {
    // Over, if the run has come to its end.
    fn follow(&mut self, done: Progress)
        ensures { self.new ≡ stage_by done self.old }
    {
        if let Progress::Ends(end) = done {
            *self = Stage::Over(end);
        }
    }
}

impl<'a> Model for TreeRun<'a> {
    ghost use Rattle.std.specs.Prelude.{◌+◌, ◌<◌, ◌^◌};
    ghost use Rattle.gg_base.specs.Turns.{Turns};

    ghost Value = { Turns };

    ghost use Rattle.tree_meaning.specs.View.{turns_of};

    ghost view = { λ r. turns_of r.stage r.left r.taken };

    ghost invariant = { λ r. r.taken + r.left < 2 ^ 64 };
}

impl<'a> TreeRun<'a> {
    // The law of all runs of a tree program stands here, as a clause of its own: `one_end`.
    /// The run of a program on an input, with at most `n` trees.
    pub fn new(
        alloc: Global,
        program: &'a TreeProgram,
        input: &'a [u8],
        n: u64,
    ) -> Result<TreeRun<'a>, NoMemory>
        ensures begins { IfOk result (λ run. run.remaining ≡ record {
          outcome = tree_run program.now input.now n;
          taken = 0;
          failed = false;
        }) }
        ensures answers { IfOk result (λ run. run.answers ≡ tree_answers program.now input.now n) }
        ensures one_end { OneEnd (tree_run program.now input.now) }
    {
        lasting_is_enough();
        let stage = match Machine::new(alloc, program, input)? {
            Some(machine) => Stage::Going(machine),
            None => Stage::Over(Finish::Wild),
        };
        Ok(TreeRun {
            stage,
            left: n,
            taken: 0,
            alloc,
        })
    }

    /// Goes on to the next event: `Going` where one tree was done that wrote nothing and did not end
    /// the run. After an end it answers that end again, and after `NoMemory` it answers that again.
    pub fn advance(&mut self) -> Result<SourceTurn, NoMemory>
        ensures turn { IfOk result (λ turn. Answers turn self.old.answers self.new.answers) }
        ensures run { IfOk result (λ turn. AdvancesTrees self.old.remaining turn self.new.remaining) }
        ensures wanting { IfErr result (λ _. self.new.remaining.failed ≡ true) }
        ensures stays { self.old.remaining.failed ≡ true → IsErr result }
        ensures within { self.new.remaining.taken ≤ self.new.remaining.outcome.number }
    {
        let machine = match &mut self.stage {
            Stage::Going(machine) => machine,
            Stage::Over(end) => return Ok(end.turn()),
            Stage::Spent => return Ok(SourceTurn::Spent),
            Stage::Failed => return Err(NoMemory),
        };
        let leaves = match machine.arrive() {
            Ok(leaves) => leaves,
            Err(end) => {
                self.stage = Stage::Over(end);
                return Ok(end.turn());
            }
        };
        if self.left == 0 {
            self.stage = Stage::Spent;
            return Ok(SourceTurn::Spent);
        }
        let Ok(done) = machine.step(self.alloc, leaves) else {
            self.stage = Stage::Failed;
            return Err(NoMemory);
        };
        self.left -= 1;
        self.taken += 1;
        self.stage.follow(done);
        Ok(done.turn())
    }
}
