// The line that tells why a program has no text.
ghost use Rattle.std.specs.Prelude.{◌≡◌, IfOk};
ghost use Rattle.c_program.specs.Programs.{program};
ghost use Rattle.cmd_compile.specs.Lines.{name_at, frame_line};

use c_typed::Program;
use gg_base::{NoMemory, Text};
use std::alloc::Global;

/// The line of a function that needs more words of its frame than there may be.
pub fn frame_line(
    alloc: Global,
    source: &Program,
    function: u32,
    need: u32,
) -> Result<Text, NoMemory>
    ensures { IfOk result (λ text. text ≡ frame_line (name_at (program source.now.held) function) need) }
{
    let mut text = Vec::from_slice(alloc, b"ggvax: ")?;
    if let Some(routine) = source.plain().routines.get(function as usize) {
        text.extend_from_slice(routine.name.as_slice())?;
    }
    let said = format!(in alloc; " needs {need} frame words\n")?;
    text.extend_from_slice(said.as_bytes())?;
    Ok(Text::from_vec(text))
}
