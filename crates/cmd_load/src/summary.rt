// The line that tells what both sides came to.
ghost use Rattle.std.specs.Prelude.{◌≡◌, IfOk, string_bytes};
ghost use Rattle.cmd_load.specs.Lines.{sizes_part, counts_part, summary_line};

use cmd_session::lines::end_line;
use gg_base::{End, NoMemory, Text};
use std::alloc::Global;

/// What both sides of a generated source came to.
#[derive(Clone, Copy)]
pub struct Summary {
    /// How many functions the source has beside `main`.
    pub functions: u32,
    /// The size of the source, in bytes.
    pub source: usize,
    /// The size of its text, in bytes.
    pub text: usize,
    /// The least number of turns and calls with which the source's run ends.
    pub turns: u64,
    /// The least number of instructions with which the text's run ends.
    pub instructions: u64,
    /// How many bytes were written.
    pub output: usize,
    /// The value of both ends.
    pub value: u32,
}

// The part of the line that tells sizes.
fn sizes_part(alloc: Global, summary: Summary) -> Result<String, NoMemory>
    ensures { IfOk result (λ text. string_bytes text ≡ sizes_part summary) }
{
    let Summary {
        functions,
        source,
        text,
        ..
    } = summary;
    Ok(format!(in alloc; "load {functions}: source {source} bytes, text {text} bytes, ")?)
}

// The part of the line that tells how much was done.
fn counts_part(alloc: Global, summary: Summary) -> Result<String, NoMemory>
    ensures { IfOk result (λ text. string_bytes text ≡ counts_part summary) }
{
    let Summary {
        turns,
        instructions,
        output,
        ..
    } = summary;
    Ok(format!(in alloc; "{turns} turns, {instructions} instructions, output {output} bytes, ")?)
}

/// The line of a summary. It gives the value as a signed number.
pub fn summary_line(alloc: Global, summary: Summary) -> Result<Text, NoMemory>
    ensures { IfOk result (λ line. line ≡ summary_line summary) }
{
    let mut line = sizes_part(alloc, summary)?.into_bytes();
    line.extend_from_slice(counts_part(alloc, summary)?.as_bytes())?;
    line.extend_from_slice(end_line(alloc, End::Ended(summary.value), 0)?.as_slice())?;
    Ok(Text::from_vec(line))
}
