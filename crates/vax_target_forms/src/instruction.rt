// The instruction of a template's line.
ghost use Rattle.std.specs.Prelude.{◌≡◌, ◌≤◌, ◌+◌, [], length};
ghost use Rattle.std.specs.Option.{option_map};
ghost use Rattle.vax_templates.specs.Instructions.{forms_from, is_label, is_call, behind_blank, jumps, operates, behind, relation};
ghost use Rattle.vax_templates.specs.Instructions.{word_len};
ghost use Rattle.vax_templates.specs.Instructions.{read_behind, instruction_of, shape_of_pieces};
ghost use Rattle.vax_templates.specs.Marks.{strip};
ghost use Rattle.vax_target_forms.specs.Answers.{Reads};
ghost use Rattle.vax_target_forms.specs.Views.{instruction_view, forms_view, form_view};

use crate::form::form;
use crate::marks::{hole, marks_of, put_bytes, put_pieces, strip};
use crate::refusal::{NOT_INSTR, Refusal};
use md_reader::{Piece, is_word};
use std::alloc::Global;
use vax_core::{Op, OperandKind};
use vax_machine::function::{Action, Test, action_of};
use vax_templates::{Form, Mark};

/// An instruction of a template: `j%i %L`, `jbr %L`, `calls %N,%F`, `ret`, or one with its operands.
#[derive(Drop)]
pub enum LineInstruction {
    Relation(u8),
    Jump,
    Call,
    Return,
    Operates(Op, Vec<Form>),
}

// As many operands as there are kinds.
fn forms(alloc: Global, kinds: &[OperandKind], marks: &[Mark]) -> Result<Vec<Form>, Refusal>
    ensures { Reads forms_view result (forms_from 32 [] kinds.now marks.now) }
{
    let mut read = Vec::new(alloc);
    let mut before = b' ';
    let mut rest = marks;
    let mut left = kinds;
    while let [_, others @ ..] = left {
        let Some(behind) = strip(before, rest) else {
            return Err(NOT_INSTR);
        };
        let Some((next, behind)) = form(behind) else {
            return Err(NOT_INSTR);
        };
        read.push(next)?;
        before = b',';
        rest = behind;
        left = others;
    }
    if rest.is_empty() {
        Ok(read)
    } else {
        Err(NOT_INSTR)
    }
}

// ` %L`
fn is_label(marks: &[Mark]) -> bool
    ensures { result ≡ behind_blank is_label (strip 32 marks.now) }
{
    matches!(strip(b' ', marks), Some([Mark::Label]))
}

// `%N,%F`
fn is_call(marks: &[Mark]) -> bool
    ensures { result ≡ is_call marks.now }
{
    let [Mark::Count, rest @ ..] = marks else {
        return false;
    };
    matches!(strip(b',', rest), Some([Mark::Callee]))
}

// ` %N,%F`
fn is_spaced_call(marks: &[Mark]) -> bool
    ensures { result ≡ behind_blank is_call (strip 32 marks.now) }
{
    match strip(b' ', marks) {
        Some(rest) => is_call(rest),
        None => false,
    }
}

fn jumps(test: Test, marks: &[Mark]) -> Result<LineInstruction, Refusal>
    ensures { Reads instruction_view result (jumps test marks.now) }
{
    match test {
        Test::Always if is_label(marks) => Ok(LineInstruction::Jump),
        _ => Err(NOT_INSTR),
    }
}

fn operates(alloc: Global, op: Op, marks: &[Mark]) -> Result<LineInstruction, Refusal>
    ensures { Reads instruction_view result (operates op marks.now) }
{
    let read = forms(alloc, op.shape().operands, marks)?;
    Ok(LineInstruction::Operates(op, read))
}

// What stands behind a mnemonic, by what the mnemonic does.
fn behind(alloc: Global, action: Action, op: Op, marks: &[Mark]) -> Result<LineInstruction, Refusal>
    ensures { Reads instruction_view result (behind action op marks.now) }
{
    match action {
        Action::Compute(_) => operates(alloc, op, marks),
        Action::Push => operates(alloc, op, marks),
        Action::Branch(test) => jumps(test, marks),
        Action::Call if is_spaced_call(marks) => Ok(LineInstruction::Call),
        Action::Return if marks.is_empty() => Ok(LineInstruction::Return),
        Action::Call | Action::Return => Err(NOT_INSTR),
    }
}

// `j%i %L`
fn relation(word: &[u8], marks: &[Mark]) -> Result<LineInstruction, Refusal>
    ensures { Reads instruction_view result (relation word.now marks.now) }
{
    if !is_word(word, "j") {
        return Err(NOT_INSTR);
    }
    match hole(marks) {
        Some((i, rest)) if is_label(rest) => Ok(LineInstruction::Relation(i)),
        _ => Err(NOT_INSTR),
    }
}

fn read_behind(alloc: Global, word: &[u8], marks: &[Mark]) -> Result<LineInstruction, Refusal>
    ensures { Reads instruction_view result (read_behind word.now marks.now) }
{
    match Op::from_mnemonic(word) {
        Some(op) => behind(alloc, action_of(op), op, marks),
        None => relation(word, marks),
    }
}

/// How long the mnemonic is: it ends before a blank.
pub fn word_len(bytes: &[u8]) -> usize
    ensures len { result ≡ word_len bytes.now }
    ensures within { result ≤ length bytes.now }
{
    bytes
        .iter()
        .position(|byte| *byte == b' ')
        .unwrap_or(bytes.len())
}

/// The instruction of a line.
pub fn instruction_of(alloc: Global, pieces: &[Piece]) -> Result<LineInstruction, Refusal>
    ensures { Reads instruction_view result (instruction_of pieces.now) }
{
    let mut marks = Vec::new(alloc);
    let [Piece::Bytes(bytes), others @ ..] = pieces else {
        put_pieces(&mut marks, pieces)?;
        return read_behind(alloc, &[], &marks);
    };
    let (word, rest) = bytes.as_slice().split_at(word_len(bytes.as_slice()));
    put_bytes(&mut marks, rest)?;
    put_pieces(&mut marks, others)?;
    read_behind(alloc, word, &marks)
}

/// The operand that a rule gives.
pub fn shape_of_pieces(alloc: Global, pieces: &[Piece]) -> Result<Form, Refusal>
    ensures { Reads form_view result (shape_of_pieces pieces.now) }
{
    let marks = marks_of(alloc, pieces)?;
    match form(&marks) {
        Some((read, [])) => Ok(read),
        _ => Err(NOT_INSTR),
    }
}
