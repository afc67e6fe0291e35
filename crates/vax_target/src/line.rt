// Lines of templates with their holes filled.
ghost use Rattle.std.specs.Prelude.{◌≡◌, IfOk, map, take};
ghost use Rattle.std.specs.Option.{option_map};
ghost use Rattle.vax_templates.specs.FilledLines.{op_of_relation, op_of_att, op_in, label_of_att, label_in, label_among};
ghost use Rattle.vax_templates.specs.FilledLines.{branch_to};
ghost use Rattle.vax_templates.specs.FilledLines.{callee_of_att, callee_in, callee_among, callee_name, plain_return, call_of};
ghost use Rattle.vax_templates.specs.FilledLines.{filled_line};
ghost use Rattle.vax_templates.specs.Filled.{filled};
ghost use Rattle.vax_target.specs.Stages.{filled_view};

use crate::filling::{Filling, addr_number, alone};
use gg_base::{Name, NoMemory, Rel};
use md_reader::Piece;
use sel_target::Attr;
use std::alloc::Global;
use tree_core::Att;
use tree_core::spelling::{function_label, label_name};
use vax_core::{Base, Instr, Op, Operand, Operands};
use vax_target_forms::instruction::{LineInstruction, instruction_of};
use vax_target_forms::refusal::Refusal;
use vax_templates::Form;

fn op_of_relation(rel: Rel) -> Op
    ensures { result ≡ op_of_relation rel }
{
    match rel {
        Rel::Eq => Op::Jeql,
        Rel::Ne => Op::Jneq,
        Rel::Lt => Op::Jlss,
        Rel::Le => Op::Jleq,
        Rel::Gt => Op::Jgtr,
        Rel::Ge => Op::Jgeq,
        Rel::Ltu => Op::Jlssu,
        Rel::Leu => Op::Jlequ,
        Rel::Gtu => Op::Jgtru,
        Rel::Geu => Op::Jgequ,
    }
}

// The branch by the relation of a token.
fn op_in(attr: &Attr<Operand>) -> Op
    ensures { result ≡ op_in attr.now }
{
    match attr {
        Attr::Token(leaf) => match leaf.att {
            Att::Branch { rel, .. } => op_of_relation(rel),
            _ => Op::Jbr,
        },
        _ => Op::Jbr,
    }
}

fn label_in(attr: &Attr<Operand>) -> Option<u32>
    ensures { result ≡ label_in attr.now }
{
    match attr {
        Attr::Token(leaf) => match leaf.att {
            Att::Branch { label, .. } => Some(label),
            Att::Label(label) => Some(label),
            _ => None,
        },
        _ => None,
    }
}

// The label of a rule's branch or jump.
fn label_among(holes: &[Attr<Operand>]) -> Option<u32>
    ensures { result ≡ label_among holes.now }
{
    holes.iter().find_map(label_in)
}

fn callee_in(attr: &Attr<Operand>) -> Option<(u32, u32)>
    ensures { result ≡ callee_in attr.now }
{
    match attr {
        Attr::Token(leaf) => match leaf.att {
            Att::Callee { function, count } => Some((function, count)),
            _ => None,
        },
        _ => None,
    }
}

// What is called, and with how many arguments.
fn callee_among(holes: &[Attr<Operand>]) -> Option<(u32, u32)>
    ensures { result ≡ callee_among holes.now }
{
    holes.iter().find_map(callee_in)
}

fn plain_return(alloc: Global) -> Instr
    ensures { result ≡ plain_return }
{
    Instr {
        op: Op::Ret,
        operands: Operands::new(alloc),
        target: None,
    }
}

impl<'a> Filling<'a> {
    fn branch_to(self, op: Op) -> Result<Instr, NoMemory>
        ensures { IfOk result (λ i. i ≡ branch_to op self.entry.holes.now) }
    {
        let target = match label_among(self.holes) {
            Some(n) => Some(label_name(self.alloc, n)?),
            None => None,
        };
        Ok(Instr {
            op,
            operands: Operands::new(self.alloc),
            target,
        })
    }

    // The name of a function, or of a service behind the functions.
    fn callee_name(self, n: u32) -> Result<Name, NoMemory>
        ensures { IfOk result (λ name. name ≡ callee_name self.entry.program.now n) }
    {
        let functions = self.program.functions.as_slice();
        if let Some(function) = functions.get(n as usize) {
            return Ok(function_label(self.alloc, &function.name)?);
        }
        let mut name = Vec::new(self.alloc);
        if n as usize == functions.len() {
            name.extend_from_slice(b"_putchar")?;
        } else {
            name.extend_from_slice(b"_getchar")?;
        }
        Ok(Name::from_vec(name))
    }

    fn call_of(self) -> Result<Instr, NoMemory>
        ensures { IfOk result (λ i. i ≡ call_of self.entry.program.now (callee_among self.entry.holes.now)) }
    {
        let Some((function, count)) = callee_among(self.holes) else {
            return Ok(plain_return(self.alloc));
        };
        let target = Some(self.callee_name(function)?);
        let mut operands = Operands::with_room(self.alloc, 1)?;
        operands.push(alone(Base::Imm(addr_number(count))))?;
        Ok(Instr {
            op: Op::Calls,
            operands,
            target,
        })
    }

    fn operands(self, forms: &[Form]) -> Result<Operands, NoMemory>
        ensures { IfOk result (λ os. os ≡ map (filled self.entry.program.now self.entry.holes.now self.entry.zero.now) (take 3 forms.now)) }
    {
        let mut operands = Operands::with_room(self.alloc, forms.len().min(3))?;
        for form in forms.iter().take(3) {
            operands.push(self.filled(*form)?)?;
        }
        Ok(operands)
    }

    fn filled_instruction(self, instruction: &LineInstruction) -> Result<Instr, NoMemory>
        ensures { IfOk result (λ i. i ≡ filled_view self.entry.program.now self.entry.holes.now self.entry.zero.now instruction.now) }
    {
        match instruction {
            LineInstruction::Relation(i) => self.branch_to(op_in(self.attr_at(*i))),
            LineInstruction::Jump => self.branch_to(Op::Jbr),
            LineInstruction::Call => self.call_of(),
            LineInstruction::Return => Ok(plain_return(self.alloc)),
            LineInstruction::Operates(op, forms) => Ok(Instr {
                op: *op,
                operands: self.operands(forms)?,
                target: None,
            }),
        }
    }

    /// A line with its holes filled; a line that no instruction can be made of becomes a return.
    pub fn filled_line(self, line: &[Piece]) -> Result<Instr, NoMemory>
        ensures { IfOk result (λ i. i ≡ filled_line self.entry.program.now line.now self.entry.holes.now self.entry.zero.now) }
    {
        match instruction_of(self.alloc, line) {
            Ok(instruction) => self.filled_instruction(&instruction),
            Err(Refusal::Wrong(_)) => Ok(plain_return(self.alloc)),
            Err(Refusal::NoMemory) => Err(NoMemory),
        }
    }
}
