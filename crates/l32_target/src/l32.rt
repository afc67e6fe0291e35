// The target.
use crate::filling::{Filling, filled_operand};
use crate::same::same;
use crate::word::{operand_bits, word_of};
use gg_base::NoMemory;
use l32_core::{Instr32, Operand32};
use l32_machine::Frame32;
use l32_target_judging::found::{found, saved_found};
use l32_templates::home::{at_home, home};
use md_reader::{Class, Kind, Line, Rule};
use sel_target::{Attr, TargetFault, Templates};
use sel_terms::Effect;
use std::alloc::Global;
use std::marker::Model;
use tree_core::TreeProgram;

/// A state of the machine, of which contracts speak and no value is made.
#[derive(Drop)]
pub struct State {
    place: usize,
}

impl Model for State {
    ghost use Rattle.std.specs.Prelude.{[], None};
    ghost use Rattle.l32_machine.specs.State.{State as Machine};

    ghost Value = { Machine };

    ghost view = { λ s. record {
      layout = [];
      items = [];
      place = s.place;
      general = [];
      fp = 0;
      sp = 0;
      area = [];
      stack = [];
      frames = [];
      input = [];
      over = None;
    } };
}

/// The live frames of a state, of which contracts speak and no value is made.
#[derive(Drop)]
pub struct Frames {
    held: Vec<Frame32>,
}

impl Model for Frames {
    ghost use Rattle.std.specs.Prelude.{List};
    ghost use Rattle.l32_machine.specs.declared.frame.Frame32.{Frame32};

    ghost Value = { List Frame32 };

    ghost view = { λ f. f.held.items };
}

/// L32.
#[derive(Clone, Copy, Debug, PartialEq, Eq)]
pub struct L32;

impl Templates for L32 {
    ghost use Rattle.l32_target_meaning.specs.L32.{l32};

    type Operand = Operand32;

    type Instr = Instr32;

    type State = State;

    type Frames = Frames;

    ghost meaning = { l32 };

    fn effect(&self, alloc: Global, rule: &Rule, classes: &[Class]) -> Result<Effect, TargetFault> {
        found(alloc, rule, classes)
    }

    fn spill_effect(&self, alloc: Global, kind: Kind, line: &Line) -> Result<Effect, TargetFault> {
        saved_found(alloc, kind, line)
    }

    // A line that no instruction can be made of becomes a return.
    fn instr(
        &self,
        alloc: Global,
        program: &TreeProgram,
        line: &Line,
        holes: &[Attr<Operand32>],
        zero: &Attr<Operand32>,
    ) -> Result<Instr32, NoMemory> {
        let filling = Filling {
            alloc,
            program,
            holes,
            zero,
        };
        filling.filled_line(line.pieces.as_slice())
    }

    fn operand(
        &self,
        alloc: Global,
        program: &TreeProgram,
        shape: &Line,
        holes: &[Attr<Operand32>],
    ) -> Result<Operand32, NoMemory> {
        filled_operand(alloc, program, shape.pieces.as_slice(), holes)
    }

    fn slot(&self, word: u32) -> Operand32 {
        home(word)
    }

    fn slot_deferred(&self, word: u32) -> Operand32 {
        at_home(word)
    }

    fn registers(&self, operand: &Operand32) -> u16 {
        operand_bits(operand)
    }

    fn word(&self, operand: &Operand32) -> Option<u32> {
        word_of(operand)
    }

    fn same(&self, a: &Operand32, b: &Operand32) -> bool {
        same(a, b)
    }
}
