// The target.
ghost use Rattle.std.specs.Prelude.{◌≡◌, ◌↔◌, IsTrue};

use crate::filling::{Filling, filled_operand};
use crate::word::word_of;
use bitflags::Flags;
use gg_base::NoMemory;
use md_reader::{Class, Kind, Line, Rule};
use sel_target::{Attr, Target, TargetFault, Templates};
use sel_terms::Effect;
use std::alloc::Global;
use std::marker::Model;
use tree_core::TreeProgram;
use vax_core::{Instr, Operand};
use vax_machine::Frames;
use vax_target_judging::found::{found, saved_found};

/// A state of the machine, of which contracts speak and no value is made.
#[derive(Drop)]
pub struct State {
    place: usize,
}

impl Model for State {
    ghost use Rattle.std.specs.Prelude.{[], None};
    ghost use Rattle.vax_machine.specs.State.{State as Machine, cleared};

    ghost Value = { Machine };

    ghost view = { λ s. record {
      layout = [];
      items = [];
      place = s.place;
      registers = [];
      conditions = cleared;
      area = [];
      stack = [];
      frames = [];
      input = [];
      over = None;
    } };
}

/// The VAX-11.
#[derive(Clone, Copy, Debug, PartialEq, Eq)]
pub struct Vax;

impl Templates for Vax {
    ghost use Rattle.vax_target_laws.specs.vax_target_meaning.specs.Vax.{vax};

    type Operand = Operand;

    type Instr = Instr;

    type State = State;

    type Frames = Frames;

    ghost meaning = { vax };

    fn effect(&self, alloc: Global, rule: &Rule, classes: &[Class]) -> Result<Effect, TargetFault> {
        found(alloc, rule, classes)
    }

    fn spill_effect(&self, alloc: Global, kind: Kind, line: &Line) -> Result<Effect, TargetFault> {
        saved_found(alloc, kind, line)
    }

    // A line that no instruction can be made of becomes a return.
    fn instr(
        &self,
        alloc: Global,
        program: &TreeProgram,
        line: &Line,
        holes: &[Attr<Operand>],
        zero: &Attr<Operand>,
    ) -> Result<Instr, NoMemory> {
        let filling = Filling {
            alloc,
            program,
            holes,
            zero,
        };
        filling.filled_line(line.pieces.as_slice())
    }

    fn operand(
        &self,
        alloc: Global,
        program: &TreeProgram,
        shape: &Line,
        holes: &[Attr<Operand>],
    ) -> Result<Operand, NoMemory> {
        filled_operand(alloc, program, shape.pieces.as_slice(), holes)
    }

    fn slot(&self, word: u32) -> Operand {
        Operand::home(word)
    }

    fn slot_deferred(&self, word: u32) -> Operand {
        Operand::at_home(word)
    }

    fn registers(&self, operand: &Operand) -> u16 {
        operand.registers().bits()
    }

    fn word(&self, operand: &Operand) -> Option<u32> {
        word_of(&operand.base)
    }

    fn same(&self, a: &Operand, b: &Operand) -> bool {
        a.same(b)
    }
}

impl Target for Vax {
    ghost use Rattle.vax_target_laws.proofs.Law.{vax_is_lawful};

    ghost lawful = { vax_is_lawful };
}
