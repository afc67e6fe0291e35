// Why an assembly text can't be run.
ghost use Rattle.std.specs.Prelude.{◌≡◌, true};
ghost use Rattle.vax_core.specs.Valid.{is_code};

use desk_page::advice::TEXTS;
use desk_page::{put_advice, put_place};
use gg_base::limits::TEXT_LIMIT;
use gg_base::{Name, NoMemory};
use std::alloc::Global;
use std::str;
use vax_core::Code;
use vax_machine::{LoadFault, load};
use vax_reader::{AsmFault, read_code};

// Whether a line is the label line of a name.
fn is_label(line: &str, name: &str) -> bool {
    line.strip_suffix(":") == Some(name)
}

// Whether a line uses a name: it stands there between other letters than those of names.
fn is_use(line: &str, name: &str) -> bool {
    line.split(|letter: char| !letter.is_ascii_alphanumeric() && letter != '_')
        .any(|word| word == name)
}

// The number of a line, from 1: of the second label line of a name, or of its first use elsewhere; 0 where there is none.
fn line_of(text: &str, name: &str, is_second: bool) -> u32 {
    let mut number = 0_u32;
    let mut labels = 0_u32;
    let mut last = 0;
    for line in text.split('\n') {
        number = number.saturating_add(1);
        if is_label(line, name) {
            labels = labels.saturating_add(1);
            last = number;
            if is_second && labels == 2 {
                return number;
            }
        } else if !is_second && is_use(line, name) {
            return number;
        }
    }
    last
}

// A line of the text and what is wrong there; line 0 is the text as a whole.
fn put_fault(
    alloc: Global,
    name: &str,
    text: &[u8],
    line: u32,
    said: &str,
    kind: &str,
    told: &mut String,
) -> Result<(), NoMemory> {
    if line > 0 {
        writeln!(told, "{name}:{line}: {said}")?;
    } else {
        writeln!(told, "{name}: {said}")?;
    }
    put_place(alloc, told, text, line, 0)?;
    put_advice(told, &TEXTS, kind)
}

// A label that is wrong, with its line.
fn put_label(
    alloc: Global,
    name: &str,
    text: &[u8],
    label: &Name,
    kind: &str,
    told: &mut String,
) -> Result<(), NoMemory> {
    let label = str::from_utf8(label.as_slice()).unwrap_or("?");
    let line = line_of(str::from_utf8(text).unwrap_or(""), label, kind == "twice");
    let said = format!(in alloc; "label {label} {kind}")?;
    put_fault(alloc, name, text, line, &said, kind, told)
}

fn put_load_fault(
    alloc: Global,
    name: &str,
    text: &[u8],
    fault: &LoadFault,
    told: &mut String,
) -> Result<(), NoMemory> {
    match fault {
        LoadFault::NoMemory => Err(NoMemory),
        LoadFault::DoubleLabel(label) => put_label(alloc, name, text, label, "twice", told),
        LoadFault::UndefinedLabel(label) => put_label(alloc, name, text, label, "undefined", told),
        LoadFault::NoMain => put_fault(alloc, name, text, 0, "no _main", "no _main", told),
        LoadFault::TooLarge => put_fault(alloc, name, text, 0, "too large", "too large", told),
    }
}

// A text that is read: whether its code can be run.
fn put_loading(
    alloc: Global,
    name: &str,
    text: &[u8],
    code: &Code,
    told: &mut String,
) -> Result<(), NoMemory>
    requires { is_code code.now ≡ true }
{
    if let Err(fault) = load(alloc, code, &[]) {
        return put_load_fault(alloc, name, text, &fault, told);
    }
    writeln!(
        told,
        "{name}: an assembly text, and nothing is wrong with it"
    )?;
    Ok(())
}

/// Adds why an assembly text is refused: its first wrong line, or the first label that is wrong; or that nothing is wrong with it.
pub fn put_why_text(
    alloc: Global,
    name: &str,
    text: &[u8],
    told: &mut String,
) -> Result<(), NoMemory> {
    if text.len() as u64 > TEXT_LIMIT {
        writeln!(
            told,
            "{name} is too long: a text has at most {TEXT_LIMIT} bytes"
        )?;
        return Ok(());
    }
    match read_code(alloc, text) {
        Ok(code) => put_loading(alloc, name, text, &code, told),
        Err(AsmFault::NoMemory) => Err(NoMemory),
        Err(AsmFault::Line { line, kind }) => {
            let line = u32::try_from(line).unwrap_or(0);
            put_fault(alloc, name, text, line, kind.name(), kind.name(), told)
        }
    }
}
