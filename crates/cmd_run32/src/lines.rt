// The lines that tell why a code can't be run. Those of a wrong text are those of `cmd_run`.
ghost use Rattle.std.specs.Prelude.{◌≡◌, IfOk};
ghost use Rattle.cmd_run.specs.Lines.{label_line};
ghost use Rattle.cmd_run32.specs.Lines.{load_line};

use gg_base::{Name, NoMemory, Text};
use l32_machine::Load32Fault;
use std::alloc::Global;

fn label_line(alloc: Global, name: &Name, what: &[u8]) -> Result<Text, NoMemory>
    ensures { IfOk result (λ text. text ≡ label_line name.now what.now) }
{
    let mut text = Vec::from_slice(alloc, b"ggvax: label ")?;
    text.extend_from_slice(name.as_slice())?;
    text.extend_from_slice(what)?;
    Ok(Text::from_vec(text))
}

/// The line that tells why a code can't be run.
pub fn load_line(alloc: Global, fault: &Load32Fault) -> Result<Text, NoMemory>
    ensures { IfOk result (λ text. text ≡ load_line fault.now) }
{
    let fixed = match fault {
        Load32Fault::DoubleLabel(name) => return label_line(alloc, name, b" twice\n"),
        Load32Fault::UndefinedLabel(name) => return label_line(alloc, name, b" undefined\n"),
        Load32Fault::NoMemory => b"ggvax: no memory\n".as_slice(),
        Load32Fault::NoMain => b"ggvax: no _main\n".as_slice(),
        Load32Fault::TooLarge => b"ggvax: too large\n".as_slice(),
    };
    Ok(Text::from_vec(Vec::from_slice(alloc, fixed)?))
}
