// Why a description is refused.
use crate::rules::{Described, put_rules};
use crate::stops::put_stops;
use desk_page::advice::{DESCRIPTIONS, TABLES};
use desk_page::{line_at, put_advice, put_place, word_column};
use desk_rule_lines::rule_lines;
use gg_base::NoMemory;
use gg_base::limits::DESCRIPTION_LIMIT;
use lr_tables::{BuildFault, build};
use md_reader::{DescFault, DescKind, Description, read_description};
use std::alloc::Global;

// The word of a line at which a kind of fault is shown.
fn word_of(kind: DescKind) -> usize {
    match kind {
        DescKind::Twice | DescKind::UnknownClass => 1,
        DescKind::UnknownToken | DescKind::NotATree | DescKind::WrongSort => 3,
        DescKind::BadIf | DescKind::BadHole | DescKind::BadGive => 1,
        _ => 0,
    }
}

// The first wrong line.
fn put_wrong(
    alloc: Global,
    name: &str,
    text: &[u8],
    line: u32,
    kind: DescKind,
    told: &mut String,
) -> Result<(), NoMemory> {
    let kind_name = format!(in alloc; "{kind:?}")?;
    match line_at(text, line) {
        Some(bytes) if !bytes.is_empty() => {
            let column = word_column(bytes, word_of(kind));
            writeln!(told, "{name}:{line}:{column}: {kind_name}")?;
            put_place(alloc, told, text, line, column)?;
        }
        _ => writeln!(told, "{name}:{line}: {kind_name}")?,
    }
    put_advice(told, &DESCRIPTIONS, &kind_name)
}

// What stops the parse of a description that is read.
fn put_tables(
    alloc: Global,
    name: &str,
    description: Description,
    told: &mut String,
) -> Result<(), NoMemory> {
    match build(alloc, description) {
        Ok(tables) => put_stops(alloc, name, tables, told),
        Err((_, BuildFault::NoMemory)) => Err(NoMemory),
        Err((_, BuildFault::TablesFull)) => {
            writeln!(told, "{name}: more than 4096 item sets")?;
            put_advice(told, &TABLES, "item sets")
        }
    }
}

// What is wrong with a description that is read: with its rules, and with its tables.
fn put_faults(
    alloc: Global,
    name: &str,
    text: &[u8],
    description: Description,
    told: &mut String,
) -> Result<(), NoMemory> {
    let lines = rule_lines(alloc, text)?;
    let rules = description.rules().len();
    let mut said = String::new(alloc);
    let described = Described {
        name,
        text,
        lines: &lines,
        description: &description,
    };
    put_rules(alloc, &described, &mut said)?;
    put_tables(alloc, name, description, &mut said)?;
    if said.is_empty() {
        writeln!(
            told,
            "{name}: a description of {rules} rules, and nothing is wrong with it"
        )?;
    }
    told.push_str(&said)?;
    Ok(())
}

/// Adds why a description is refused: its first wrong line; or each rule that isn't shown, and the tree that stops the parse; or that
/// nothing is wrong with it.
pub fn put_why_description(
    alloc: Global,
    name: &str,
    text: &[u8],
    told: &mut String,
) -> Result<(), NoMemory> {
    if text.len() as u64 > DESCRIPTION_LIMIT {
        writeln!(
            told,
            "{name} is too long: a description has at most {DESCRIPTION_LIMIT} bytes"
        )?;
        return Ok(());
    }
    match read_description(alloc, text) {
        Ok(description) => put_faults(alloc, name, text, description, told),
        Err(DescFault::NoMemory) => Err(NoMemory),
        Err(DescFault::Line { line, kind }) => put_wrong(alloc, name, text, line, kind, told),
    }
}
