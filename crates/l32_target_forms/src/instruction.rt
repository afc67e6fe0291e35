// The instruction of a template's line.
ghost use Rattle.std.specs.Prelude.{◌≡◌, [], IfOk};
ghost use Rattle.std.specs.Option.{option_copied};
ghost use Rattle.vax_templates.specs.Instructions.{behind_blank, word_of, marks_behind};
ghost use Rattle.vax_templates.specs.Marks.{strip};
ghost use Rattle.vax_target_forms.specs.Answers.{Reads};
ghost use Rattle.l32_templates.specs.Instructions.{label_front, forms_from, is_call, operates, is_call_op, calls, with_op, relation};
ghost use Rattle.l32_templates.specs.Instructions.{read_behind, instruction_of, shape_of_pieces};
ghost use Rattle.l32_target_forms.specs.Views.{instruction_view, forms_view, form_view};

use crate::form::form;
use gg_base::NoMemory;
use l32_core::{Op32, Part};
use l32_templates::Form;
use md_reader::{Piece, is_word};
use std::alloc::Global;
use vax_target_forms::instruction::word_len;
use vax_target_forms::marks::{hole, marks_of, put_bytes, put_pieces, strip};
use vax_target_forms::refusal::{NOT_INSTR, Refusal};
use vax_templates::Mark;

/// An instruction of a template: `j%i x,y,%L`, `call %F,%N`, or one with its operands.
#[derive(Drop)]
pub enum LineInstruction {
    Relation(u8, Vec<Form>),
    Call,
    Operates(Op32, Vec<Form>),
}

// What is left behind `%L`.
fn label(marks: &[Mark]) -> Option<&[Mark]>
    ensures { label_front marks.now ≡ option_copied result }
{
    match marks {
        [Mark::Label, rest @ ..] => Some(rest),
        _ => None,
    }
}

// What stands behind a mnemonic, part for part.
fn forms(alloc: Global, parts: &[Part], marks: &[Mark]) -> Result<Vec<Form>, Refusal>
    ensures { Reads forms_view result (forms_from 32 [] parts.now marks.now) }
{
    let mut read = Vec::new(alloc);
    let mut before = b' ';
    let mut rest = marks;
    let mut left = parts;
    while let [part, others @ ..] = left {
        let Some(behind) = strip(before, rest) else {
            return Err(NOT_INSTR);
        };
        match part {
            Part::Operand(_) => {
                let Some((next, behind)) = form(behind) else {
                    return Err(NOT_INSTR);
                };
                read.push(next)?;
                rest = behind;
            }
            Part::Label => {
                let Some(behind) = label(behind) else {
                    return Err(NOT_INSTR);
                };
                rest = behind;
            }
        }
        before = b',';
        left = others;
    }
    if rest.is_empty() {
        Ok(read)
    } else {
        Err(NOT_INSTR)
    }
}

// `%F,%N`
fn is_call(marks: &[Mark]) -> bool
    ensures { result ≡ is_call marks.now }
{
    let [Mark::Callee, rest @ ..] = marks else {
        return false;
    };
    matches!(strip(b',', rest), Some([Mark::Count]))
}

// ` %F,%N`
fn is_spaced_call(marks: &[Mark]) -> bool
    ensures { result ≡ behind_blank is_call (strip 32 marks.now) }
{
    match strip(b' ', marks) {
        Some(rest) => is_call(rest),
        None => false,
    }
}

fn operates(alloc: Global, op: Op32, marks: &[Mark]) -> Result<LineInstruction, Refusal>
    ensures { Reads instruction_view result (operates op marks.now) }
{
    let read = forms(alloc, op.shape().parts, marks)?;
    Ok(LineInstruction::Operates(op, read))
}

fn is_call_op(op: Op32) -> bool
    ensures { result ≡ is_call_op op }
{
    matches!(op, Op32::Call)
}

// What stands behind `call`.
fn calls(marks: &[Mark]) -> Result<LineInstruction, Refusal>
    ensures { Reads instruction_view result (calls marks.now) }
{
    if is_spaced_call(marks) {
        Ok(LineInstruction::Call)
    } else {
        Err(NOT_INSTR)
    }
}

// What stands behind a mnemonic.
fn with_op(alloc: Global, op: Op32, marks: &[Mark]) -> Result<LineInstruction, Refusal>
    ensures { Reads instruction_view result (with_op marks.now op) }
{
    if is_call_op(op) {
        calls(marks)
    } else {
        operates(alloc, op, marks)
    }
}

// `j%i x,y,%L`
fn relation(alloc: Global, word: &[u8], marks: &[Mark]) -> Result<LineInstruction, Refusal>
    ensures { Reads instruction_view result (relation word.now marks.now) }
{
    if !is_word(word, "j") {
        return Err(NOT_INSTR);
    }
    let Some((i, rest)) = hole(marks) else {
        return Err(NOT_INSTR);
    };
    let read = forms(alloc, Op32::Beq.shape().parts, rest)?;
    Ok(LineInstruction::Relation(i, read))
}

fn read_behind(alloc: Global, word: &[u8], marks: &[Mark]) -> Result<LineInstruction, Refusal>
    ensures { Reads instruction_view result (read_behind word.now marks.now) }
{
    match Op32::from_mnemonic(word) {
        Some(op) => with_op(alloc, op, marks),
        None => relation(alloc, word, marks),
    }
}

// The mnemonic at the front of a line.
fn word_of(pieces: &[Piece]) -> &[u8]
    ensures { result.now ≡ word_of pieces.now }
{
    match pieces {
        [Piece::Bytes(bytes), ..] => bytes.as_slice().split_at(word_len(bytes.as_slice())).0,
        _ => &[],
    }
}

// The marks behind the mnemonic.
fn marks_behind(alloc: Global, pieces: &[Piece]) -> Result<Vec<Mark>, NoMemory>
    ensures { IfOk result (λ v. v.items ≡ marks_behind pieces.now) }
{
    match pieces {
        [Piece::Bytes(bytes), others @ ..] => {
            let mut marks = Vec::new(alloc);
            let (_, rest) = bytes.as_slice().split_at(word_len(bytes.as_slice()));
            put_bytes(&mut marks, rest)?;
            put_pieces(&mut marks, others)?;
            Ok(marks)
        }
        _ => marks_of(alloc, pieces),
    }
}

/// The instruction of a line.
pub fn instruction_of(alloc: Global, pieces: &[Piece]) -> Result<LineInstruction, Refusal>
    ensures { Reads instruction_view result (instruction_of pieces.now) }
{
    let marks = marks_behind(alloc, pieces)?;
    read_behind(alloc, word_of(pieces), &marks)
}

/// The operand that a rule gives.
pub fn shape_of_pieces(alloc: Global, pieces: &[Piece]) -> Result<Form, Refusal>
    ensures { Reads form_view result (shape_of_pieces pieces.now) }
{
    let marks = marks_of(alloc, pieces)?;
    match form(&marks) {
        Some((read, [])) => Ok(read),
        _ => Err(NOT_INSTR),
    }
}
