// Rows of the subject `trees`. A row `tree SORT LEAVES` asks whether the leaves are one well-typed tree of that sort. The lines before
// `=> valid` and `=> run N INPUT` are a program: whether it is valid, and how its run ends that counts at most N trees; and those before
// `=> front` stand before each later program.
use crate::leaves::{leaves_of, sort_named};
use crate::programs::program_of;
use crate::runs::put_bytes;
use gg_base::{NoMemory, SourceTurn};
use std::alloc::Global;
use tree_core::{show_tree, typed};
use tree_meaning::TreeRun;

// The most turns of a run.
const MOST_TURNS: u32 = 2000;

fn answer_tree(alloc: Global, row: &str, told: &mut String) -> Result<(), NoMemory> {
    let (word, words) = row.split_once(' ').unwrap_or((row, ""));
    let Some(sort) = sort_named(word) else {
        told.push_str("no sort\n")?;
        return Ok(());
    };
    let leaves = leaves_of(alloc, words)?;
    let is_typed = typed(leaves.as_slice(), sort);
    write!(told, "{row}: {is_typed} (")?;
    put_bytes(told, show_tree(alloc, leaves.as_slice())?.as_slice())?;
    told.push_str(")\n")?;
    Ok(())
}

// How a run ended, and what it answers when it is asked once more. What it wrote goes behind the output.
fn run(
    alloc: Global,
    text: &str,
    count: u64,
    input: &[u8],
    output: &mut Vec<u8>,
) -> Result<(SourceTurn, SourceTurn), NoMemory> {
    let program = program_of(alloc, text)?;
    let mut run = TreeRun::new(alloc, &program, input, count)?;
    let mut turn = SourceTurn::Going;
    for _ in 0..MOST_TURNS {
        turn = run.advance()?;
        match turn {
            SourceTurn::Going => {}
            SourceTurn::Wrote(byte) => output.push(byte)?,
            _ => break,
        }
    }
    Ok((turn, run.advance()?))
}

fn answer_run(alloc: Global, text: &str, words: &str, told: &mut String) -> Result<(), NoMemory> {
    let (number, input) = words.split_once(' ').unwrap_or((words, ""));
    let count = number.parse::<u64>().unwrap_or(0);
    let mut output = Vec::new(alloc);
    let (turn, again) = run(alloc, text, count, input.as_bytes(), &mut output)?;
    write!(told, "=> run {words}: {turn:?}, \"")?;
    put_bytes(told, output.as_slice())?;
    if turn == again {
        told.push_str("\"\n")?;
    } else {
        writeln!(told, "\", and then {again:?}")?;
    }
    Ok(())
}

fn answer_question(
    alloc: Global,
    text: &str,
    question: &str,
    told: &mut String,
) -> Result<(), NoMemory> {
    if let Some(words) = question.strip_prefix("run ") {
        return answer_run(alloc, text, words, told);
    }
    if question == "valid" {
        let is_valid = program_of(alloc, text)?.valid();
        writeln!(told, "=> valid: {is_valid}")?;
    } else {
        writeln!(told, "=> {question}: no question")?;
    }
    Ok(())
}

/// Adds what is true of each row's tree, and of each program, behind its lines.
pub fn answer_trees(alloc: Global, rows: &str, told: &mut String) -> Result<(), NoMemory> {
    let mut front = String::new(alloc);
    let mut text = String::new(alloc);
    for line in rows.lines() {
        if let Some(row) = line.strip_prefix("tree ") {
            answer_tree(alloc, row, told)?;
        } else if let Some(question) = line.strip_prefix("=> ") {
            if question == "front" {
                front.clear();
                front.push_str(&text)?;
            } else {
                answer_question(alloc, &text, question, told)?;
            }
            text.clear();
            text.push_str(&front)?;
        } else {
            writeln!(told, "{line}")?;
            writeln!(text, "{line}")?;
        }
    }
    Ok(())
}
