// The lines that refuse an assembly text.
ghost use Rattle.std.specs.Prelude.{◌≡◌, IfOk};
ghost use Rattle.cmd_run.specs.Lines.{wrong_line, label_line, load_line};

use gg_base::{Name, NoMemory, Text};
use std::alloc::Global;
use vax_machine::LoadFault;
use vax_reader::AsmKind;

/// The line that names the first line that is not of the grammar.
pub fn wrong_line(alloc: Global, line: u64, kind: AsmKind) -> Result<Text, NoMemory>
    ensures { IfOk result (λ text. text ≡ wrong_line line kind) }
{
    let text = format!(in alloc; "ggvax: line {line}: {}\n", kind.name())?;
    Ok(Text::from_vec(text.into_bytes()))
}

fn label_line(alloc: Global, name: &Name, what: &[u8]) -> Result<Text, NoMemory>
    ensures { IfOk result (λ text. text ≡ label_line name.now what.now) }
{
    let mut text = Vec::from_slice(alloc, b"ggvax: label ")?;
    text.extend_from_slice(name.as_slice())?;
    text.extend_from_slice(what)?;
    Ok(Text::from_vec(text))
}

/// The line that tells why a code can't be run.
pub fn load_line(alloc: Global, fault: &LoadFault) -> Result<Text, NoMemory>
    ensures { IfOk result (λ text. text ≡ load_line fault.now) }
{
    let fixed = match fault {
        LoadFault::DoubleLabel(name) => return label_line(alloc, name, b" twice\n"),
        LoadFault::UndefinedLabel(name) => return label_line(alloc, name, b" undefined\n"),
        LoadFault::NoMemory => b"ggvax: no memory\n".as_slice(),
        LoadFault::NoMain => b"ggvax: no _main\n".as_slice(),
        LoadFault::TooLarge => b"ggvax: too large\n".as_slice(),
    };
    Ok(Text::from_vec(Vec::from_slice(alloc, fixed)?))
}
