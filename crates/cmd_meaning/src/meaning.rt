// The command `meaning S N`.
ghost use Rattle.std.specs.Prelude.{◌≡◌, ℕ, List};
ghost use Rattle.cmd_session.specs.Reading.{intake};
ghost use Rattle.cmd_files.specs.Outsides.{outside};
ghost use Rattle.cmd_files.specs.Calls.{call_of};
ghost use Rattle.cmd_files.specs.Commands.{IsRunOfFile};
ghost use Rattle.cmd_meaning.specs.Sources.{source_form, source_runner};

use crate::source::SourceText;
use cmd_files::run_file;
use cmd_session::Status;
use gg_outside::{Folder, Sink, Source};
use std::alloc::Global;

/// The command `meaning S N`: reads the C source `name` and the whole input, and runs the source by its meaning, with at most
/// `count` counted turns of loops and calls. The run's output goes to `out`, and then the line of its end to `report`. A refusal
/// writes one line to `report`.
pub fn run_source<F: Folder, I: Source, O: Sink, E: Sink>(
    alloc: Global,
    name: &str,
    count: u64,
    folder: &mut F,
    input: &mut I,
    out: &mut O,
    report: &mut E,
) -> Status
    // What each status says of the source, of the input, of its run, and of what both outputs gained; that each comes where its cause is
    // there; and what is asked of the folder and taken of the input.
    ensures runs { IsRunOfFile source_form source_runner result (call_of name.now count (intake I.Source input.old input.new)
        (outside F.Folder O.Sink E.Sink folder.old folder.new out.old out.new report.old report.new)) }
    // The folder stays as it was.
    ensures holds { (n : List ℕ) → F.holds folder.new n ≡ F.holds folder.old n }
{
    run_file::<SourceText, F, I, O, E>(alloc, name, count, folder, input, out, report)
}
