// Rows of the subject `tables`: descriptions one after another, and what is found of each.
//
// A case is the lines before a line `=>`, which is written with what is found behind it. The lines before `=> front` stand before each
// later case instead, up to the next such line. A line `=> sets` is written with the item sets of the lines before it, and `=> stack` and
// a tree's tokens with the stack where the tree's parse stops; the case goes on behind them. `=> shipped` compares the shipped description
// with the one of version 1.
use crate::cases::put_line;
use crate::found::{Finding, examine, tables_of};
use crate::shipped::put_comparison;
use crate::stacks::put_stack;
use desk_tables::Drawing;
use gg_base::NoMemory;
use gg_base::limits::DESCRIPTION_LIMIT;
use std::alloc::Global;

fn answer_case(alloc: Global, text: &str, told: &mut String) -> Result<(), NoMemory> {
    told.push_str("=> ")?;
    if text.len() as u64 > DESCRIPTION_LIMIT {
        told.push_str("too long\n")?;
        return Ok(());
    }
    match examine(alloc, text.as_bytes())? {
        Finding::Tables { rules, states } => writeln!(told, "{rules} rules, {states} item sets")?,
        Finding::Wrong { line, kind } => writeln!(told, "line {line}: {kind:?}")?,
        Finding::Full => told.push_str("more than 4096 item sets\n")?,
    }
    Ok(())
}

fn answer_sets(alloc: Global, text: &str, told: &mut String) -> Result<(), NoMemory> {
    match tables_of(alloc, text, told)? {
        Some(tables) => Drawing::new(alloc, &tables).put_sets(told),
        None => Ok(()),
    }
}

fn answer_stack(alloc: Global, text: &str, words: &str, told: &mut String) -> Result<(), NoMemory> {
    match tables_of(alloc, text, told)? {
        Some(tables) => put_stack(alloc, &tables, words, told),
        None => Ok(()),
    }
}

// The lines of a case behind those that stand before each case.
fn behind<'a>(text: &'a str, front: &str) -> &'a str {
    text.strip_prefix(front).unwrap_or("")
}

/// Adds each case with what is found of it.
pub fn answer_tables(alloc: Global, rows: &str, told: &mut String) -> Result<(), NoMemory> {
    let mut front = String::new(alloc);
    let mut text = String::new(alloc);
    for line in rows.lines() {
        if line == "=>" {
            answer_case(alloc, &text, told)?;
            text.clear();
            text.push_str(&front)?;
            continue;
        }
        writeln!(told, "{line}")?;
        if line == "=> front" {
            front = String::from_str(alloc, behind(&text, &front))?;
            text.clear();
            text.push_str(&front)?;
        } else if line == "=> sets" {
            answer_sets(alloc, &text, told)?;
        } else if line == "=> shipped" {
            put_comparison(alloc, told)?;
        } else if let Some(words) = line.strip_prefix("=> stack ") {
            answer_stack(alloc, &text, words, told)?;
        } else {
            put_line(&mut text, line)?;
        }
    }
    Ok(())
}
