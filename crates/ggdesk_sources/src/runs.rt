// A program run by its meaning, and its trees run beside it.
use c_meaning::SourceRun;
use c_program::Program;
use gg_base::{NoMemory, SourceTurn};
use std::alloc::{AllocError, Global};
use tree_core::TreeProgram;
use tree_meaning::TreeRun;

// The most events of a run of a program, and the most trees of a run of its trees.
const MOST_EVENTS: u64 = 16_000_000;

const MOST_TREES: u64 = 4_000_000;

// What a run wrote, and how it ended.
#[derive(Drop)]
struct Answer {
    output: Vec<u8>,
    end: SourceTurn,
}

fn source_answer(
    alloc: Global,
    program: &Program,
    input: &[u8],
    turns: u64,
) -> Result<Answer, NoMemory> {
    let mut run = SourceRun::new(alloc, program, input, turns)?;
    let mut output = Vec::new(alloc);
    for _ in 0..MOST_EVENTS {
        match run.advance()? {
            SourceTurn::Going => {}
            SourceTurn::Wrote(byte) => output.push(byte)?,
            end => return Ok(Answer { output, end }),
        }
    }
    Ok(Answer {
        output,
        end: SourceTurn::Spent,
    })
}

fn trees_answer(alloc: Global, trees: &TreeProgram, input: &[u8]) -> Result<Answer, NoMemory> {
    let mut run = TreeRun::new(alloc, trees, input, MOST_TREES)?;
    let mut output = Vec::new(alloc);
    for _ in 0..MOST_EVENTS {
        match run.advance()? {
            SourceTurn::Going => {}
            SourceTurn::Wrote(byte) => output.push(byte)?,
            end => return Ok(Answer { output, end }),
        }
    }
    Ok(Answer {
        output,
        end: SourceTurn::Spent,
    })
}

fn put_end(told: &mut String, end: SourceTurn) -> Result<(), AllocError> {
    match end {
        SourceTurn::Ended(value) => write!(told, "ended {value}"),
        SourceTurn::Trapped => told.push_str("trapped"),
        SourceTurn::Wild => told.push_str("wild"),
        SourceTurn::Deep => told.push_str("deep"),
        SourceTurn::Spent => told.push_str("spent"),
        SourceTurn::Going | SourceTurn::Wrote(_) => told.push_str("going"),
    }
}

// How the output of the trees lies to that of the source.
fn likeness(source: &[u8], trees: &[u8]) -> &'static str {
    if source == trees {
        "the same output"
    } else if trees.starts_with(source) {
        "more output"
    } else {
        "another output"
    }
}

/// Adds the bytes, each as the character of its number.
pub fn put_bytes(told: &mut String, bytes: &[u8]) -> Result<(), AllocError> {
    told.extend(bytes.iter().map(|byte| char::from(*byte)))
}

/// Runs a program with at most so many counted turns, and its trees, and adds how both end.
pub fn put_runs(
    alloc: Global,
    program: &Program,
    trees: &TreeProgram,
    input: &[u8],
    turns: u64,
    told: &mut String,
) -> Result<(), NoMemory> {
    let source = source_answer(alloc, program, input, turns)?;
    let trees = trees_answer(alloc, trees, input)?;
    told.push_str("  source ")?;
    put_end(told, source.end)?;
    told.push_str(", trees ")?;
    put_end(told, trees.end)?;
    let output = likeness(source.output.as_slice(), trees.output.as_slice());
    writeln!(told, ", {output}")?;
    Ok(())
}
