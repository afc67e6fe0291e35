// The line that refuses a source.
ghost use Rattle.std.specs.Prelude.{◌≡◌, IfOk};
ghost use Rattle.cmd_meaning.specs.Lines.{fault_line};

use c_typed::SourceKind;
use gg_base::{NoMemory, Place, Text};
use std::alloc::Global;

/// The line that names the place of a source's first fault and its kind.
pub fn fault_line(alloc: Global, place: Place, kind: SourceKind) -> Result<Text, NoMemory>
    ensures { IfOk result (λ text. text ≡ fault_line place kind) }
{
    let Place { line, column } = place;
    let text = format!(in alloc; "ggvax: {line}:{column}: {kind}\n")?;
    Ok(Text::from_vec(text.into_bytes()))
}
