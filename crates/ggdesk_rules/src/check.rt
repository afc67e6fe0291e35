// Rows of the subject `check`: descriptions, with a line of `=` between them. Of each is written whether every tree is parsed by its
// tables; or the tree that stops them, and how its replay ends. Where trees stand behind a description, each after a line of `~`, it is
// written how the parse of each ends.
use crate::found::tables_of;
use crate::samples::sample_of;
use crate::words::put_bytes;
use gg_base::NoMemory;
use lr_check::{Outcome, Sample, replay};
use lr_checked::{CheckFault, Checked, check, sample_lines};
use lr_tables::Tables;
use std::alloc::Global;

// How the sample's parse by the tables ends.
fn put_replay(
    alloc: Global,
    tables: &Tables,
    sample: &Sample,
    told: &mut String,
) -> Result<(), NoMemory> {
    if !sample.is_numbered() {
        told.push_str("no tree\n")?;
        return Ok(());
    }
    match replay(alloc, tables, sample)? {
        Outcome::Done => told.push_str("replay accepts\n")?,
        Outcome::Blocks(at) => writeln!(told, "replay blocks at {at}")?,
        Outcome::Loops(at) => writeln!(told, "replay loops at {at}")?,
        Outcome::Long => told.push_str("the tree is too long\n")?,
    }
    Ok(())
}

// What the sample shows, its nodes, and its replay.
fn put_sample(
    alloc: Global,
    what: &str,
    tables: &Tables,
    sample: &Sample,
    told: &mut String,
) -> Result<(), NoMemory> {
    told.push_str(what)?;
    put_bytes(told, sample_lines(alloc, sample)?.as_slice())?;
    put_replay(alloc, tables, sample, told)
}

// Why the tables are refused.
fn put_refusal(
    alloc: Global,
    tables: &Tables,
    fault: &CheckFault,
    told: &mut String,
) -> Result<(), NoMemory> {
    match fault {
        CheckFault::NoMemory => Err(NoMemory),
        CheckFault::CheckFull => Ok(told.push_str("too many tuples\n")?),
        CheckFault::Blocks(sample) => put_sample(alloc, "blocks\n", tables, sample, told),
        CheckFault::Loops(sample) => put_sample(alloc, "loops\n", tables, sample, told),
    }
}

fn put_accepted(checked: &Checked, told: &mut String) -> Result<(), NoMemory> {
    let states = checked.tables().states();
    let tuples = checked.tuples();
    writeln!(told, "accepted: {states} item sets, {tuples} tuples")?;
    Ok(())
}

fn put_check(alloc: Global, tables: Tables, told: &mut String) -> Result<(), NoMemory> {
    match check(alloc, tables) {
        Ok(checked) => put_accepted(&checked, told),
        Err((tables, fault)) => put_refusal(alloc, &tables, &fault, told),
    }
}

// Whether every tree is parsed.
fn answer_check(alloc: Global, text: &str, told: &mut String) -> Result<(), NoMemory> {
    match tables_of(alloc, text, told)? {
        Some(tables) => put_check(alloc, tables, told),
        None => Ok(()),
    }
}

fn put_replays(
    alloc: Global,
    tables: &Tables,
    trees: &str,
    told: &mut String,
) -> Result<(), NoMemory> {
    for tree in trees.split('~') {
        let sample = sample_of(alloc, tree)?;
        put_replay(alloc, tables, &sample, told)?;
    }
    Ok(())
}

// How the parse of each tree by the description's tables ends.
fn answer_trees(alloc: Global, text: &str, trees: &str, told: &mut String) -> Result<(), NoMemory> {
    match tables_of(alloc, text, told)? {
        Some(tables) => put_replays(alloc, &tables, trees, told),
        None => Ok(()),
    }
}

fn answer_description(alloc: Global, text: &str, told: &mut String) -> Result<(), NoMemory> {
    match text.split_once('~') {
        Some((description, trees)) => answer_trees(alloc, description, trees, told),
        None => answer_check(alloc, text, told),
    }
}

/// Adds what is said of each description.
pub fn answer_checks(alloc: Global, rows: &str, told: &mut String) -> Result<(), NoMemory> {
    let mut text = String::new(alloc);
    for line in rows.lines() {
        if line == "=" {
            answer_description(alloc, &text, told)?;
            text.clear();
        } else {
            writeln!(text, "{line}")?;
        }
    }
    answer_description(alloc, &text, told)
}
