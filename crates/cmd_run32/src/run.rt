// The command `run32 A N`.
ghost use Rattle.std.specs.Prelude.{◌≡◌, ℕ, List};
ghost use Rattle.cmd_session.specs.Reading.{intake};
ghost use Rattle.cmd_files.specs.Outsides.{outside};
ghost use Rattle.cmd_files.specs.Calls.{call_of};
ghost use Rattle.cmd_files.specs.Commands.{IsRunOfFile};
ghost use Rattle.cmd_run32.specs.Texts.{text_form, code_runner};

use crate::text::CodeText32;
use cmd_files::run_file;
use cmd_session::Status;
use gg_outside::{Folder, Sink, Source};
use std::alloc::Global;

/// The command `run32 A N`: reads the assembly text `name` of L32 and the whole input, and runs the text's code for at most `count`
/// steps. The run's output goes to `out`, and then the line of its end to `report`. A refusal writes one line to `report`.
pub fn run_text32<F: Folder, I: Source, O: Sink, E: Sink>(
    alloc: Global,
    name: &str,
    count: u64,
    folder: &mut F,
    input: &mut I,
    out: &mut O,
    report: &mut E,
) -> Status
    // What each status says of the file, of the input, of the run, and of what both outputs gained; that each comes where its cause is
    // there; and what is asked of the folder and taken of the input.
    ensures runs { IsRunOfFile text_form code_runner result (call_of name.now count (intake I.Source input.old input.new)
        (outside F.Folder O.Sink E.Sink folder.old folder.new out.old out.new report.old report.new)) }
    // The folder stays as it was.
    ensures holds { (n : List ℕ) → F.holds folder.new n ≡ F.holds folder.old n }
{
    run_file::<CodeText32, F, I, O, E>(alloc, name, count, folder, input, out, report)
}
