// Scripts: sections of rows, each behind a line that names its subject.
use crate::subject::{SUBJECTS, Subject};
use cmd_session::{Status, write_all};
use desk_commands::answer_desk;
use gg_base::NoMemory;
use gg_outside::{Sink, SinkFault};
use ggdesk_commands::commands::answer_commands;
use ggdesk_images::images::answer_images;
use ggdesk_machine::assembly::answer_assembly;
use ggdesk_machine::machine::answer_machine;
use ggdesk_passes::passes::answer_passes;
use ggdesk_rules::check::answer_checks;
use ggdesk_rules::tables::answer_tables;
use ggdesk_rules::templates::answer_templates;
use ggdesk_rules::terms::answer_terms;
use ggdesk_sources::lowering::answer_lowering;
use ggdesk_sources::syntax::answer_syntax;
use ggdesk_sources::trees::answer_trees;
use ggdesk_sources::types::answer_types;
use std::alloc::{AllocError, Global};

fn answer_rows(
    alloc: Global,
    subject: Subject,
    rows: &str,
    told: &mut String,
) -> Result<(), NoMemory> {
    match subject {
        Subject::Syntax => answer_syntax(alloc, rows, told),
        Subject::Assembly => answer_assembly(alloc, rows, told),
        Subject::Images => answer_images(alloc, rows, told),
        Subject::Machine => answer_machine(alloc, rows, told),
        Subject::Passes => answer_passes(alloc, rows, told),
        Subject::Terms => answer_terms(alloc, rows, told),
        Subject::Trees => answer_trees(alloc, rows, told),
        Subject::Types => answer_types(alloc, rows, told),
        Subject::Lowering => answer_lowering(alloc, rows, told),
        Subject::Tables => answer_tables(alloc, rows, told),
        Subject::Templates => answer_templates(alloc, rows, told),
        Subject::Check => answer_checks(alloc, rows, told),
        Subject::Commands => answer_commands(alloc, rows, told),
        Subject::Desk => answer_desk(alloc, rows, told),
    }
}

// The line of a name that is no subject's.
fn put_subjects(told: &mut String) -> Result<(), AllocError> {
    told.push_str("no subject; there are")?;
    for (name, _) in &SUBJECTS {
        told.push(' ')?;
        told.push_str(name)?;
    }
    told.push('\n')
}

// The section's heading and the answers to its rows.
fn section(alloc: Global, name: &str, rows: &str) -> Result<String, NoMemory> {
    let mut told = format!(in alloc; "== {name}\n")?;
    match Subject::named(name) {
        Some(subject) => answer_rows(alloc, subject, rows, &mut told)?,
        None => put_subjects(&mut told)?,
    }
    Ok(told)
}

fn write_section<K: Sink>(
    alloc: Global,
    name: &str,
    rows: &str,
    out: &mut K,
) -> Result<(), SinkFault> {
    if name.is_empty() && rows.is_empty() {
        return Ok(());
    }
    match section(alloc, name, rows) {
        Ok(told) => write_all(out, told.as_bytes()),
        Err(NoMemory) => Err(SinkFault::NoMemory),
    }
}

// Writes the sections one after another. Rows before the first heading are of the named subject.
fn write_sections<K: Sink>(
    alloc: Global,
    subject: &str,
    script: &str,
    out: &mut K,
) -> Result<(), SinkFault> {
    let mut name = String::from_str(alloc, subject)?;
    let mut rows = String::new(alloc);
    for line in script.lines() {
        match line.strip_prefix("== ") {
            Some(next) => {
                write_section(alloc, &name, &rows, out)?;
                name = String::from_str(alloc, next)?;
                rows.clear();
            }
            None => writeln!(rows, "{line}")?,
        }
    }
    write_section(alloc, &name, &rows, out)
}

/// Writes each section of a script with the answers to its rows. Rows before the first heading are of the named subject.
pub fn answer_script<K: Sink>(
    alloc: Global,
    subject: &str,
    script: &str,
    out: &mut K,
) -> Result<Status, NoMemory> {
    match write_sections(alloc, subject, script, out) {
        Ok(()) => Ok(Status::Done),
        Err(SinkFault::Failed) => Ok(Status::WriteFault),
        Err(SinkFault::NoMemory) => Err(NoMemory),
    }
}
