// The run of a program, event by event.

ghost use Rattle.std.specs.Prelude.{◌≡◌, ◌≤◌, true, false, List, ℕ, IfOk, IfErr, IsErr};
ghost use Rattle.gg_base.specs.declared.run.Break.{Break as ABreak};
ghost use Rattle.gg_base.specs.declared.run.End.TheVariants.{Broken};
ghost use Rattle.gg_base.specs.Runs.{OneEnd, Advances};
ghost use Rattle.gg_base.specs.Turns.{Answers};
ghost use Rattle.c_program.specs.Programs.{AProgram, program as plain};
ghost use Rattle.c_meaning.specs.State.{State};
ghost use Rattle.c_meaning.specs.Programs.{source, means};
ghost use Rattle.c_meaning.specs.Values.{Behind, Task};
ghost use Rattle.c_meaning.specs.Meaning.{task};
ghost use Rattle.c_meaning.specs.Turns.{answers};

use crate::flow::Event;
use crate::machine::Machine;
use c_program::Program;
use gg_base::{NoMemory, SourceTurn};
use std::alloc::Global;
use std::marker::Model;

/// A run of a program that still goes on, or is over.
#[derive(Drop)]
pub struct SourceRun<'a> {
    machine: Machine<'a>,
    left: u64,
    taken: u64,
    spent: bool,
    failed: bool,
    alloc: Global,
}

impl<'a> Model for SourceRun<'a> {
    ghost use Rattle.std.specs.Prelude.{◌+◌, ◌<◌, ◌^◌};
    ghost use Rattle.gg_base.specs.Turns.{Turns};

    ghost Value = { Turns };

    ghost use Rattle.c_meaning.specs.Runner.{turns_of};

    ghost view = { λ r. turns_of r.machine r.left r.taken r.spent r.failed };

    ghost invariant = { λ r. r.taken + r.left < 2 ^ 64 };
}

impl<'a> SourceRun<'a> {
    // The laws of all runs of a program stand here, as clauses of their own: `one_end`, and that none breaks.
    /// The run of a program on an input, with at most `n` counted turns of loops and calls.
    pub fn new(
        alloc: Global,
        program: &'a Program,
        input: &'a [u8],
        n: u64,
    ) -> Result<SourceRun<'a>, NoMemory>
        ensures begins { IfOk result (λ run. run.remaining ≡ record {
          outcome = source (plain program.now) input.now n;
          taken =
              0;
          failed = false;
        }) }
        ensures answers { IfOk result (λ run. run.answers ≡ answers (source (plain program.now) input.now) n) }
        ensures one_end { OneEnd (source (plain program.now) input.now) }
        ensures unbroken { (count : ℕ) (kind : ABreak) → (source (plain program.now) input.now count).end ≡ Broken kind → ⊥ }
    {
        let machine = Machine::new(alloc, program, input)?;
        Ok(SourceRun {
            machine,
            left: n,
            taken: 0,
            spent: false,
            failed: false,
            alloc,
        })
    }

    /// Goes on to the next event: `Going` where one turn of a loop or one call was counted. After an end it answers that
    /// end again, and after `NoMemory` it answers that again.
    pub fn advance(&mut self) -> Result<SourceTurn, NoMemory>
        ensures turn { IfOk result (λ turn. Answers turn self.old.answers self.new.answers) }
        ensures run { IfOk result (λ turn. Advances self.old.remaining turn self.new.remaining) }
        ensures wanting { IfErr result (λ _. self.new.remaining.failed ≡ true) }
        ensures stays { self.old.remaining.failed ≡ true → IsErr result }
        ensures within { self.new.remaining.taken ≤ self.new.remaining.outcome.number }
    {
        if self.failed {
            return Err(NoMemory);
        }
        if self.spent {
            return Ok(SourceTurn::Spent);
        }
        match self.machine.advance(self.alloc) {
            Err(_) => {
                self.failed = true;
                Err(NoMemory)
            }
            Ok(Event::Quiet) => unreachable!(),
            Ok(Event::Wrote(byte)) => Ok(SourceTurn::Wrote(byte)),
            Ok(Event::Counted) => {
                if self.left == 0 {
                    self.spent = true;
                    Ok(SourceTurn::Spent)
                } else {
                    self.left -= 1;
                    self.taken += 1;
                    Ok(SourceTurn::Going)
                }
            }
            Ok(Event::Stopped(finish)) => Ok(finish.turn()),
        }
    }
}

/// The law of what counted turns and calls begin: it means what it is made of. It does nothing.
#[tactic(auto, using(crate::proofs::Law::means_is))]
pub fn tasks_mean()
    ensures { (p : AProgram) (t : Task) (κ : Behind) (st : State) → means p t κ st ≡ task p (means p) t κ st }
{}
