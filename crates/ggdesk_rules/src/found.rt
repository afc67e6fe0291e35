// A text's description and its tables, or why it has none.
ghost use Rattle.std.specs.Prelude.{◌≤◌, length, IfOk};
ghost use Rattle.gg_base.specs.declared.limits.TheConstants.{DESCRIPTION_LIMIT};
ghost use Rattle.ggdesk_rules.specs.Told.{Says, Tells};

use gg_base::NoMemory;
use gg_base::limits::DESCRIPTION_LIMIT;
use lr_tables::{BuildFault, Tables, build};
use md_reader::{DescFault, DescKind, Description, read_description};
use std::alloc::Global;

/// How many rules and item sets a text has as a description; or its first wrong line, from 1, and what is wrong there; or that it has more
/// than `MAX_STATES` item sets.
#[derive(Clone, Copy, Debug, PartialEq, Eq)]
pub enum Finding {
    Tables { rules: usize, states: u32 },
    Wrong { line: u32, kind: DescKind },
    Full,
}

fn refused(fault: DescFault) -> Result<Finding, NoMemory>
    ensures { IfOk result (λ f. Says fault f) }
{
    match fault {
        DescFault::NoMemory => Err(NoMemory),
        DescFault::Line { line, kind } => Ok(Finding::Wrong { line, kind }),
    }
}

/// Reads the description and builds its tables.
pub fn examine(alloc: Global, bytes: &[u8]) -> Result<Finding, NoMemory>
    requires { length bytes.now ≤ DESCRIPTION_LIMIT }
    ensures { IfOk result (λ r. Tells bytes.now r) }
{
    match read_description(alloc, bytes) {
        Ok(description) => match build(alloc, description) {
            Ok(tables) => {
                tables.is_numbered();
                Ok(Finding::Tables {
                    rules: tables.description().rules().len(),
                    states: tables.states(),
                })
            }
            Err((_, BuildFault::TablesFull)) => Ok(Finding::Full),
            Err((_, BuildFault::NoMemory)) => Err(NoMemory),
        },
        Err(fault) => refused(fault),
    }
}

fn no_description(fault: DescFault, told: &mut String) -> Result<Option<Description>, NoMemory> {
    match fault {
        DescFault::Line { line, kind } => {
            writeln!(told, "line {line}: {kind:?}")?;
            Ok(None)
        }
        DescFault::NoMemory => Err(NoMemory),
    }
}

/// The description that a text is; a line is added where it is none.
pub fn description_of(
    alloc: Global,
    text: &str,
    told: &mut String,
) -> Result<Option<Description>, NoMemory> {
    if text.len() as u64 > DESCRIPTION_LIMIT {
        told.push_str("the description is too long\n")?;
        return Ok(None);
    }
    match read_description(alloc, text.as_bytes()) {
        Ok(description) => Ok(Some(description)),
        Err(fault) => no_description(fault, told),
    }
}

fn no_tables(fault: BuildFault, told: &mut String) -> Result<Option<Tables>, NoMemory> {
    match fault {
        BuildFault::TablesFull => {
            told.push_str("more than 4096 item sets\n")?;
            Ok(None)
        }
        BuildFault::NoMemory => Err(NoMemory),
    }
}

fn built(
    alloc: Global,
    description: Description,
    told: &mut String,
) -> Result<Option<Tables>, NoMemory> {
    match build(alloc, description) {
        Ok(tables) => Ok(Some(tables)),
        Err((_, fault)) => no_tables(fault, told),
    }
}

/// The tables of the description that a text is; a line is added where it has none.
pub fn tables_of(alloc: Global, text: &str, told: &mut String) -> Result<Option<Tables>, NoMemory> {
    match description_of(alloc, text, told)? {
        Some(description) => built(alloc, description, told),
        None => Ok(None),
    }
}
