// The answers.
use crate::ask::Ask;
use crate::files::{Form, Trouble, file_of};
use crate::help::{put_help, put_usage};
use c_lower::lower;
use c_typed::{Program, SourceFault, read_source};
use cmd_session::{InputFault, Status, read_all};
use desk_code::code::Tabled;
use desk_code::put_code;
use desk_descriptions::put_why_description;
use desk_images::put_why_image;
use desk_rule_lines::rule_lines;
use desk_rules::put_rules;
use desk_sets::{put_dot, put_item_sets, put_parses};
use desk_sources::put_why;
use desk_taking::counts_of;
use desk_texts::put_why_text;
use gg_base::NoMemory;
use gg_base::limits::{DESCRIPTION_LIMIT, SOURCE_LIMIT, TEXT_LIMIT};
use gg_outside::{Folder, Source};
use ggdesk_sources::notation::put_program;
use lr_tables::{BuildFault, Tables, build};
use md_reader::{DescFault, Description, read_description};
use std::alloc::Global;

// The most bytes of the trees that are parsed.
const TREES_LIMIT: usize = 1_048_576;

/// A description's tables, and the lines of its rules.
#[derive(Drop)]
struct Described {
    tables: Tables,
    lines: Vec<u32>,
}

// The program of a source; else why it is none was added.
fn program_of(
    alloc: Global,
    name: &str,
    bytes: &[u8],
    told: &mut String,
) -> Result<Option<Program>, NoMemory> {
    if bytes.len() as u64 > SOURCE_LIMIT {
        put_why(alloc, name, bytes, told)?;
        return Ok(None);
    }
    match read_source(alloc, bytes) {
        Ok(program) => Ok(Some(program)),
        Err(SourceFault::NoMemory) => Err(NoMemory),
        Err(SourceFault::At { .. }) => {
            put_why(alloc, name, bytes, told)?;
            Ok(None)
        }
    }
}

// The tables of a description that is read; None where there are too many item sets.
fn built(alloc: Global, description: Description) -> Result<Option<Tables>, NoMemory> {
    match build(alloc, description) {
        Ok(tables) => Ok(Some(tables)),
        Err((_, BuildFault::NoMemory)) => Err(NoMemory),
        Err((_, BuildFault::TablesFull)) => Ok(None),
    }
}

// The tables of a description; None where it is refused.
fn tables_of(alloc: Global, bytes: &[u8]) -> Result<Option<Tables>, NoMemory> {
    if bytes.len() as u64 > DESCRIPTION_LIMIT {
        return Ok(None);
    }
    match read_description(alloc, bytes) {
        Ok(description) => built(alloc, description),
        Err(DescFault::NoMemory) => Err(NoMemory),
        Err(DescFault::Line { .. }) => Ok(None),
    }
}

// The tables of a description; else why it has none was added.
fn describe(
    alloc: Global,
    name: &str,
    bytes: &[u8],
    told: &mut String,
) -> Result<Option<Described>, NoMemory> {
    let lines = rule_lines(alloc, bytes)?;
    match tables_of(alloc, bytes)? {
        Some(tables) => Ok(Some(Described { tables, lines })),
        None => {
            put_why_description(alloc, name, bytes, told)?;
            Ok(None)
        }
    }
}

fn why<F: Folder>(
    alloc: Global,
    folder: &mut F,
    name: &str,
    told: &mut String,
) -> Result<(), Trouble> {
    let named = Form::of_name(name);
    let limit = match named {
        Some(form) => form.limit(),
        None => TEXT_LIMIT,
    };
    let bytes = file_of(alloc, folder, name, limit)?;
    let form = match named {
        Some(form) => form,
        None => Form::of_bytes(&bytes),
    };
    match form {
        Form::Source => put_why(alloc, name, &bytes, told)?,
        Form::Description => put_why_description(alloc, name, &bytes, told)?,
        Form::Assembly => put_why_text(alloc, name, &bytes, told)?,
        Form::Image => put_why_image(alloc, name, &bytes, told)?,
    }
    Ok(())
}

fn trees<F: Folder>(
    alloc: Global,
    folder: &mut F,
    name: &str,
    told: &mut String,
) -> Result<(), Trouble> {
    let bytes = file_of(alloc, folder, name, SOURCE_LIMIT)?;
    if let Some(program) = program_of(alloc, name, &bytes, told)? {
        let trees = lower(alloc, &program)?;
        put_program(told, &program, &trees)?;
    }
    Ok(())
}

// The rules of a description, with the counts of a source's trees.
fn counted_rules<F: Folder>(
    alloc: Global,
    folder: &mut F,
    described: &Described,
    source: &str,
    told: &mut String,
) -> Result<(), Trouble> {
    let bytes = file_of(alloc, folder, source, SOURCE_LIMIT)?;
    if let Some(program) = program_of(alloc, source, &bytes, told)? {
        let trees = lower(alloc, &program)?;
        let counts = counts_of(alloc, &described.tables, &trees)?;
        let description = described.tables.description();
        put_rules(alloc, description, &described.lines, Some(&counts), told)?;
    }
    Ok(())
}

fn rules<F: Folder>(
    alloc: Global,
    folder: &mut F,
    name: &str,
    source: Option<&str>,
    told: &mut String,
) -> Result<(), Trouble> {
    let bytes = file_of(alloc, folder, name, DESCRIPTION_LIMIT)?;
    let Some(described) = describe(alloc, name, &bytes, told)? else {
        return Ok(());
    };
    match source {
        Some(source) => counted_rules(alloc, folder, &described, source, told),
        None => {
            let description = described.tables.description();
            put_rules(alloc, description, &described.lines, None, told)?;
            Ok(())
        }
    }
}

// How item sets are told.
#[derive(Clone, Copy)]
enum Drawn {
    Text,
    Graph,
}

fn sets<F: Folder>(
    alloc: Global,
    folder: &mut F,
    name: &str,
    drawn: Drawn,
    told: &mut String,
) -> Result<(), Trouble> {
    let bytes = file_of(alloc, folder, name, DESCRIPTION_LIMIT)?;
    if let Some(described) = describe(alloc, name, &bytes, told)? {
        match drawn {
            Drawn::Text => put_item_sets(alloc, &described.tables, told)?,
            Drawn::Graph => put_dot(alloc, &described.tables, told)?,
        }
    }
    Ok(())
}

// The whole input.
fn input_of<I: Source>(alloc: Global, input: &mut I) -> Result<String, Trouble> {
    match read_all(alloc, input, TREES_LIMIT) {
        Ok(bytes) => Ok(String::from_utf8_lossy(alloc, bytes.as_slice())?),
        Err(InputFault::NoMemory) => Err(Trouble::NoMemory),
        Err(InputFault::Failed) => {
            let line = String::from_str(alloc, "ggdesk: the input was not read\n")?;
            Err(Trouble::Refused(Status::InputFault, line))
        }
        Err(InputFault::TooLong) => {
            let line = String::from_str(alloc, "ggdesk: the input is too long\n")?;
            Err(Trouble::Refused(Status::TooLong, line))
        }
    }
}

fn parse<F: Folder, I: Source>(
    alloc: Global,
    folder: &mut F,
    input: &mut I,
    name: &str,
    told: &mut String,
) -> Result<(), Trouble> {
    let bytes = file_of(alloc, folder, name, DESCRIPTION_LIMIT)?;
    if let Some(described) = describe(alloc, name, &bytes, told)? {
        let trees = input_of(alloc, input)?;
        put_parses(alloc, &described.tables, &described.lines, &trees, told)?;
    }
    Ok(())
}

fn code<F: Folder>(
    alloc: Global,
    folder: &mut F,
    name: &str,
    source: &str,
    told: &mut String,
) -> Result<(), Trouble> {
    let bytes = file_of(alloc, folder, name, DESCRIPTION_LIMIT)?;
    let Some(described) = describe(alloc, name, &bytes, told)? else {
        return Ok(());
    };
    let bytes = file_of(alloc, folder, source, SOURCE_LIMIT)?;
    if let Some(program) = program_of(alloc, source, &bytes, told)? {
        let trees = lower(alloc, &program)?;
        let tabled = Tabled {
            tables: &described.tables,
            lines: &described.lines,
        };
        put_code(alloc, &tabled, &bytes, &program, &trees, told)?;
    }
    Ok(())
}

/// Adds the answer to a question.
pub fn tell<F: Folder, I: Source>(
    alloc: Global,
    ask: Ask,
    folder: &mut F,
    input: &mut I,
    told: &mut String,
) -> Result<(), Trouble> {
    match ask {
        Ask::Why(name) => why(alloc, folder, name, told),
        Ask::Trees(name) => trees(alloc, folder, name, told),
        Ask::Rules(name, source) => rules(alloc, folder, name, source, told),
        Ask::Sets(name) => sets(alloc, folder, name, Drawn::Text, told),
        Ask::Dot(name) => sets(alloc, folder, name, Drawn::Graph, told),
        Ask::Parse(name) => parse(alloc, folder, input, name, told),
        Ask::Code(name, source) => code(alloc, folder, name, source, told),
        Ask::Help(None) => Ok(put_usage(told)?),
        Ask::Help(Some(name)) => Ok(put_help(told, name)?),
    }
}
