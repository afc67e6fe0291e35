// Rows of the subject `lowering`: sources, each a block of lines, of which those that begin with `#` say what the block is for. A block
// ends with an empty line, and is then written with its trees. It may also end with a line `=> run N`: it is run with at most N counted
// turns, its own text as input, and its trees beside it; or `=> count N`: it is lowered N times, and the number of items is written.
use crate::notation::{count_items, put_program};
use crate::runs::put_runs;
use c_lower::lower;
use c_typed::{Program, SourceFault, read_source};
use gg_base::NoMemory;
use gg_base::limits::SOURCE_LIMIT;
use std::alloc::{AllocError, Global};

// What is done with a block.
#[derive(Clone, Copy)]
enum Task {
    // Its trees are written.
    Show,
    // It is lowered so many times, and the number of items is written.
    Count(u32),
    // It is run with at most so many counted turns, and its trees are run, on its own text as input.
    Run(u32),
}

// The task that a line asks for; none where the line is one of a block's own.
fn asked(line: &str) -> Option<Task> {
    if line.is_empty() {
        return Some(Task::Show);
    }
    let (word, number) = line.strip_prefix("=> ")?.split_once(' ')?;
    let number = number.parse::<u32>().ok()?;
    match word {
        "count" => Some(Task::Count(number)),
        "run" => Some(Task::Run(number)),
        _ => None,
    }
}

fn answer_count(
    alloc: Global,
    program: &Program,
    rounds: u32,
    told: &mut String,
) -> Result<(), NoMemory> {
    let mut items = 0;
    for _ in 0..rounds {
        items = count_items(&lower(alloc, program)?);
    }
    writeln!(told, "  {items} items")?;
    Ok(())
}

fn answer_program(
    alloc: Global,
    task: Task,
    program: &Program,
    source: &[u8],
    told: &mut String,
) -> Result<(), NoMemory> {
    match task {
        Task::Count(rounds) => answer_count(alloc, program, rounds, told),
        Task::Show => Ok(put_program(told, program, &lower(alloc, program)?)?),
        Task::Run(turns) => {
            let trees = lower(alloc, program)?;
            put_runs(
                alloc,
                program.plain(),
                &trees,
                source,
                u64::from(turns),
                told,
            )
        }
    }
}

// Does the task with a source, or adds its first fault.
fn answer_source(
    alloc: Global,
    task: Task,
    source: &[u8],
    told: &mut String,
) -> Result<(), NoMemory> {
    if source.len() as u64 > SOURCE_LIMIT {
        told.push_str("  too long\n")?;
        return Ok(());
    }
    match read_source(alloc, source) {
        Ok(program) => answer_program(alloc, task, &program, source, told),
        Err(SourceFault::NoMemory) => Err(NoMemory),
        Err(SourceFault::At { place, kind }) => {
            writeln!(told, "  {}:{}: {kind}", place.line, place.column)?;
            Ok(())
        }
    }
}

// The lines of a block that are source.
fn source_of(alloc: Global, block: &str) -> Result<String, AllocError> {
    let mut source = String::new(alloc);
    for line in block.lines() {
        if !line.starts_with('#') {
            writeln!(source, "{line}")?;
        }
    }
    Ok(source)
}

fn answer_block(alloc: Global, task: Task, block: &str, told: &mut String) -> Result<(), NoMemory> {
    let is_shown = matches!(task, Task::Show);
    if is_shown {
        told.push_str(block)?;
    }
    let source = source_of(alloc, block)?;
    answer_source(alloc, task, source.as_bytes(), told)?;
    if is_shown {
        told.push('\n')?;
    }
    Ok(())
}

/// Adds what each block's source becomes.
pub fn answer_lowering(alloc: Global, rows: &str, told: &mut String) -> Result<(), NoMemory> {
    let mut block = String::new(alloc);
    for line in rows.lines() {
        match asked(line) {
            Some(task) => {
                answer_block(alloc, task, &block, told)?;
                block.clear();
            }
            None => writeln!(block, "{line}")?,
        }
    }
    if !block.is_empty() {
        answer_block(alloc, Task::Show, &block, told)?;
    }
    Ok(())
}
