// The toy machine as a target.

ghost use Rattle.std.specs.Prelude.{◌≡◌};
ghost use Rattle.sel_toy_machine.specs.Machine.{bit_of};

use crate::{effect, filling};
use gg_base::NoMemory;
use md_reader::{Class, Kind, Line, Rule};
use sel_target::{Attr, Target, TargetFault, Templates};
use sel_terms::Effect;
use sel_toy_machine::{Instr, Operand};
use std::alloc::Global;
use std::marker::Model;
use tree_core::TreeProgram;

/// A state of the machine, of which no value is made.
#[derive(Drop)]
pub struct State {
    seen: u8,
}

impl Model for State {
    ghost use Rattle.std.specs.Prelude.{[]};
    ghost use Rattle.sel_toy_machine.specs.Machine.{Machine};

    ghost Value = { Machine };

    ghost view = { λ s. record {
      registers = [];
      words = [];
      arguments = [];
      pushed = [];
      callers = s.seen;
      area = [];
      input =
          [];
      functions = [];
    } };
}

/// The toy machine.
#[derive(Clone, Copy, Debug, PartialEq, Eq)]
pub struct Toy;

impl Templates for Toy {
    ghost use Rattle.sel_toy_machine.specs.Toy.{toy};

    type Operand = Operand;

    type Instr = Instr;

    type State = State;

    type Frames = u32;

    ghost meaning = { toy };

    fn effect(&self, alloc: Global, rule: &Rule, classes: &[Class]) -> Result<Effect, TargetFault> {
        effect::effect(alloc, rule, classes)
    }

    fn spill_effect(&self, alloc: Global, kind: Kind, line: &Line) -> Result<Effect, TargetFault> {
        effect::spill_effect(alloc, kind, line)
    }

    fn instr(
        &self,
        _alloc: Global,
        program: &TreeProgram,
        line: &Line,
        holes: &[Attr<Operand>],
        zero: &Attr<Operand>,
    ) -> Result<Instr, NoMemory> {
        Ok(filling::instr(program, line, holes, zero))
    }

    fn operand(
        &self,
        _alloc: Global,
        program: &TreeProgram,
        shape: &Line,
        holes: &[Attr<Operand>],
    ) -> Result<Operand, NoMemory> {
        Ok(filling::operand(program, shape, holes))
    }

    fn slot(&self, word: u32) -> Operand {
        Operand::Word(word)
    }

    fn slot_deferred(&self, word: u32) -> Operand {
        Operand::Deferred(word)
    }

    fn registers(&self, operand: &Operand) -> u16 {
        match *operand {
            Operand::Register(r) => bit_of(r),
            Operand::Based(r) => bit_of(r),
            _ => 0,
        }
    }

    fn word(&self, operand: &Operand) -> Option<u32> {
        match *operand {
            Operand::Word(w) | Operand::Deferred(w) => Some(w),
            _ => None,
        }
    }

    fn same(&self, a: &Operand, b: &Operand) -> bool {
        match (*a, *b) {
            (Operand::Register(r), Operand::Register(s)) => r == s,
            (Operand::Based(r), Operand::Based(s)) => r == s,
            (Operand::Word(w), Operand::Word(v)) => w == v,
            (Operand::Deferred(w), Operand::Deferred(v)) => w == v,
            (Operand::Argument(k), Operand::Argument(j)) => k == j,
            (Operand::Number(n), Operand::Number(k)) => n == k,
            _ => false,
        }
    }
}

impl Target for Toy {
    ghost use Rattle.sel_toy_machine.proofs.Law.{toy_is_lawful};

    ghost lawful = { toy_is_lawful };
}

// The bit of a register, of which there are twelve.
#[tactic(auto, using(crate::proofs::Bits::shifted))]
fn bit_of(r: u8) -> u16
    ensures { result ≡ bit_of r }
{
    if r < 12 { 1 << r } else { 0 }
}
