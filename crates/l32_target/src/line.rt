// Lines of templates with their holes filled.
ghost use Rattle.std.specs.Prelude.{◌≡◌, IfOk, map, take};
ghost use Rattle.std.specs.List.{list_any};
ghost use Rattle.l32_core.specs.Ops.{shape};
ghost use Rattle.vax_templates.specs.FilledLines.{callee_name};
ghost use Rattle.l32_templates.specs.FilledLines.{op_of_relation, op_in, label_in, label_among, callee_in, callee_among};
ghost use Rattle.l32_templates.specs.FilledLines.{plain_return, call_of, is_label, label_behind, with_operands, filled_line};
ghost use Rattle.l32_templates.specs.Filled.{filled};
ghost use Rattle.l32_target.specs.Stages.{filled_view};

use crate::filling::Filling;
use gg_base::{Name, NoMemory, Rel};
use l32_core::{Instr32, Op32, Operand32, Operands32, Part};
use l32_target_forms::instruction::{LineInstruction, instruction_of};
use l32_templates::Form;
use md_reader::Piece;
use sel_target::Attr;
use std::alloc::Global;
use tree_core::Att;
use tree_core::spelling::{function_label, label_name};
use vax_target_forms::refusal::Refusal;

// The branch of a relation.
fn op_of_relation(rel: Rel) -> Op32
    ensures { result ≡ op_of_relation rel }
{
    match rel {
        Rel::Eq => Op32::Beq,
        Rel::Ne => Op32::Bne,
        Rel::Lt => Op32::Blt,
        Rel::Le => Op32::Ble,
        Rel::Gt => Op32::Bgt,
        Rel::Ge => Op32::Bge,
        Rel::Ltu => Op32::Bltu,
        Rel::Leu => Op32::Bleu,
        Rel::Gtu => Op32::Bgtu,
        Rel::Geu => Op32::Bgeu,
    }
}

// The branch by the relation of a token.
fn op_in(attr: &Attr<Operand32>) -> Op32
    ensures { result ≡ op_in attr.now }
{
    match attr {
        Attr::Token(leaf) => match leaf.att {
            Att::Branch { rel, .. } => op_of_relation(rel),
            _ => Op32::B,
        },
        _ => Op32::B,
    }
}

fn label_in(attr: &Attr<Operand32>) -> Option<u32>
    ensures { result ≡ label_in attr.now }
{
    match attr {
        Attr::Token(leaf) => match leaf.att {
            Att::Branch { label, .. } => Some(label),
            Att::Label(label) => Some(label),
            _ => None,
        },
        _ => None,
    }
}

// The label of a rule's branch or jump.
fn label_among(holes: &[Attr<Operand32>]) -> Option<u32>
    ensures { result ≡ label_among holes.now }
{
    holes.iter().find_map(label_in)
}

fn callee_in(attr: &Attr<Operand32>) -> Option<(u32, u32)>
    ensures { result ≡ callee_in attr.now }
{
    match attr {
        Attr::Token(leaf) => match leaf.att {
            Att::Callee { function, count } => Some((function, count)),
            _ => None,
        },
        _ => None,
    }
}

// What is called, and with how many arguments.
fn callee_among(holes: &[Attr<Operand32>]) -> Option<(u32, u32)>
    ensures { result ≡ callee_among holes.now }
{
    holes.iter().find_map(callee_in)
}

fn plain_return(alloc: Global) -> Instr32
    ensures { result ≡ plain_return }
{
    Instr32 {
        op: Op32::Ret,
        operands: Operands32::new(alloc),
        target: None,
    }
}

fn is_label(part: &Part) -> bool
    ensures { result ≡ is_label part.now }
{
    matches!(part, Part::Label)
}

// Whether a label stands behind a mnemonic.
fn has_label(op: Op32) -> bool
    ensures { result ≡ list_any is_label (shape op).parts }
{
    op.shape().parts.iter().any(|part| is_label(part))
}

impl<'a> Filling<'a> {
    // The label behind a mnemonic that has one.
    fn label_behind(self, op: Op32) -> Result<Option<Name>, NoMemory>
        ensures { IfOk result (λ name. name ≡ label_behind op self.entry.holes.now) }
    {
        if !has_label(op) {
            return Ok(None);
        }
        match label_among(self.holes) {
            Some(n) => Ok(Some(label_name(self.alloc, n)?)),
            None => Ok(None),
        }
    }

    // The name of a function, or of a service behind the functions.
    fn callee_name(self, n: u32) -> Result<Name, NoMemory>
        ensures { IfOk result (λ name. name ≡ callee_name self.entry.program.now n) }
    {
        let functions = self.program.functions.as_slice();
        if let Some(function) = functions.get(n as usize) {
            return Ok(function_label(self.alloc, &function.name)?);
        }
        let mut name = Vec::new(self.alloc);
        if n as usize == functions.len() {
            name.extend_from_slice(b"_putchar")?;
        } else {
            name.extend_from_slice(b"_getchar")?;
        }
        Ok(Name::from_vec(name))
    }

    fn call_of(self) -> Result<Instr32, NoMemory>
        ensures { IfOk result (λ i. i ≡ call_of self.entry.program.now (callee_among self.entry.holes.now)) }
    {
        let Some((function, count)) = callee_among(self.holes) else {
            return Ok(plain_return(self.alloc));
        };
        let target = Some(self.callee_name(function)?);
        let mut operands = Operands32::with_room(self.alloc, 1)?;
        operands.push(Operand32::Num(count))?;
        Ok(Instr32 {
            op: Op32::Call,
            operands,
            target,
        })
    }

    fn operands(self, forms: &[Form]) -> Result<Operands32, NoMemory>
        ensures { IfOk result (λ os. os ≡ map (filled self.entry.program.now self.entry.holes.now self.entry.zero.now) (take 3 forms.now)) }
    {
        let mut operands = Operands32::with_room(self.alloc, forms.len().min(3))?;
        for form in forms.iter().take(3) {
            operands.push(self.filled(*form)?)?;
        }
        Ok(operands)
    }

    fn with_operands(self, op: Op32, forms: &[Form]) -> Result<Instr32, NoMemory>
        ensures { IfOk result (λ i. i ≡ with_operands self.entry.program.now self.entry.holes.now self.entry.zero.now op forms.now) }
    {
        let target = self.label_behind(op)?;
        Ok(Instr32 {
            op,
            operands: self.operands(forms)?,
            target,
        })
    }

    fn filled_instruction(self, instruction: &LineInstruction) -> Result<Instr32, NoMemory>
        ensures { IfOk result (λ i. i ≡ filled_view self.entry.program.now self.entry.holes.now self.entry.zero.now instruction.now) }
    {
        match instruction {
            LineInstruction::Relation(i, forms) => {
                self.with_operands(op_in(self.attr_at(*i)), forms)
            }
            LineInstruction::Call => self.call_of(),
            LineInstruction::Operates(op, forms) => self.with_operands(*op, forms),
        }
    }

    /// A line with its holes filled; a line that no instruction can be made of becomes a return.
    pub fn filled_line(self, line: &[Piece]) -> Result<Instr32, NoMemory>
        ensures { IfOk result (λ i. i ≡ filled_line self.entry.program.now line.now self.entry.holes.now self.entry.zero.now) }
    {
        match instruction_of(self.alloc, line) {
            Ok(instruction) => self.filled_instruction(&instruction),
            Err(Refusal::Wrong(_)) => Ok(plain_return(self.alloc)),
            Err(Refusal::NoMemory) => Err(NoMemory),
        }
    }
}
