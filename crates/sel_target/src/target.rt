// A machine, as the selection of instructions sees it: its calls, and the laws that they keep.

ghost use Rattle.std.specs.Prelude.{◌≡◌, ◌<◌, IfOk, IfErr, Ok, true};
ghost use Rattle.gg_base.specs.declared.limits.TheConstants.{NEED_LIMIT};
ghost use Rattle.sel_terms_meaning.specs.md_reader.specs.Valid.{IsRule, IsSpill};
ghost use Rattle.sel_terms_meaning.specs.sel_terms.specs.Effects.{effect_of};
ghost use Rattle.sel_target.specs.Meaning.{Meaning};
ghost use Rattle.sel_target.specs.Calls.{IsFaultOf, can_be_saved};
ghost use Rattle.sel_target.specs.Laws.{IsLawful};

use crate::attr::Attr;
use crate::fault::TargetFault;
use gg_base::NoMemory;
use sel_terms_meaning::{Class, Effect, Kind, Line, Rule};
use std::alloc::Global;
use tree_core::TreeProgram;

/// A machine's templates: what they do, and what they become with their holes filled. What they mean is one record.
pub trait Templates: Sized + Drop {
    /// An operand of an instruction.
    type Operand: Drop;

    /// An instruction.
    type Instr: Drop;

    /// A state of the machine, of which contracts speak and no value is made.
    type State;

    /// The live frames of a state, of which contracts speak and no value is made.
    type Frames;

    /// What operands, instructions and templates mean.
    ghost meaning: { Meaning Self.Operand Self.Instr Self.State Self.Frames };

    /// What the template of a rule with these classes does, or the first fault in it.
    fn effect(&self, alloc: Global, rule: &Rule, classes: &[Class]) -> Result<Effect, TargetFault>
        requires { IsRule classes.now rule.now }
        ensures found { IfOk result (λ e. meaning.effect classes.now rule.now ≡ Ok (effect_of e)) }
        ensures fault { IfErr result (λ e. IsFaultOf e (meaning.effect classes.now rule.now)) };

    /// What a line does that saves what is of this kind, a value, a place or an address, or, for a register, that reloads one.
    fn spill_effect(&self, alloc: Global, kind: Kind, line: &Line) -> Result<Effect, TargetFault>
        requires kind { can_be_saved kind ≡ true }
        requires line { IsSpill line.now }
        ensures found { IfOk result (λ e. meaning.spill_effect kind line.now ≡ Ok (effect_of e)) }
        ensures fault { IfErr result (λ e. IsFaultOf e (meaning.spill_effect kind line.now)) };

    /// A line with its holes filled; `zero` stands for `%0`. A line that is no instruction becomes some instruction.
    fn instr(
        &self,
        alloc: Global,
        program: &TreeProgram,
        line: &Line,
        holes: &[Attr<Self::Operand>],
        zero: &Attr<Self::Operand>,
    ) -> Result<Self::Instr, NoMemory>
        ensures { IfOk result (λ i. i ≡ meaning.instr program.now line.now holes.now zero.now) };

    /// A shape with its holes filled. The one hole of a local or an argument is that symbol's place.
    fn operand(
        &self,
        alloc: Global,
        program: &TreeProgram,
        shape: &Line,
        holes: &[Attr<Self::Operand>],
    ) -> Result<Self::Operand, NoMemory>
        ensures { IfOk result (λ o. o ≡ meaning.operand program.now shape.now holes.now) };

    /// The frame word with this number.
    fn slot(&self, word: u32) -> Self::Operand
        requires { word < NEED_LIMIT }
        ensures { result ≡ meaning.slot word };

    /// The place whose address the frame word with this number holds.
    fn slot_deferred(&self, word: u32) -> Self::Operand
        requires { word < NEED_LIMIT }
        ensures { result ≡ meaning.slot_deferred word };

    /// The registers on which an operand depends: bit N for register N, from 0 to 11.
    fn registers(&self, operand: &Self::Operand) -> u16
        ensures { result ≡ meaning.registers operand.now };

    /// The frame word that an operand reads, if it reads one.
    fn word(&self, operand: &Self::Operand) -> Option<u32>
        ensures { result ≡ meaning.word operand.now };

    /// Whether two operands are spelled alike.
    fn same(&self, a: &Self::Operand, b: &Self::Operand) -> bool
        ensures { result ≡ meaning.same a.now b.now };
}

/// A machine whose meanings keep the laws that selection stands on, which are one record.
pub trait Target: Templates {
    /// The laws.
    ghost lawful: { IsLawful Self.meaning };
}
