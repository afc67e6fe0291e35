// A command that runs the item of a file on the input.
ghost use Rattle.std.specs.Prelude.{◌≡◌, ℕ, List};
ghost use Rattle.cmd_session.specs.Reading.{intake};
ghost use Rattle.cmd_files.specs.Outsides.{outside};
ghost use Rattle.cmd_files.specs.Calls.{call_of, AreBytes};
ghost use Rattle.cmd_files.specs.Commands.{IsRunOfFile};

use crate::forms::Runs;
use crate::stages::{read_file, read_input};
use cmd_session::Status;
use gg_outside::{Folder, Sink, Source};
use std::alloc::Global;

// The bytes of a slice are numbers below 256.
fn know_bytes(bytes: &[u8]) -> usize
    ensures { AreBytes bytes.now }
{
    bytes.len()
}

/// Reads the file `name` by its form and the whole input, and runs the file's item on the input with the number `count`. The
/// run's output goes to `out`, and then the line of its end to `report`. A refusal writes one line to `report`.
pub fn run_file<T: Runs, F: Folder, I: Source, O: Sink, E: Sink>(
    alloc: Global,
    name: &str,
    count: u64,
    folder: &mut F,
    input: &mut I,
    out: &mut O,
    report: &mut E,
) -> Status
    // What each status says of the file, of the input, of the run, and of what both outputs gained; that each comes where its cause is
    // there; and what is asked of the folder and taken of the input.
    ensures runs { IsRunOfFile T.form T.runner result (call_of name.now count (intake I.Source input.old input.new)
        (outside F.Folder O.Sink E.Sink folder.old folder.new out.old out.new report.old report.new)) }
    // The folder stays as it was.
    ensures holds { (n : List ℕ) → F.holds folder.new n ≡ F.holds folder.old n }
{
    let item: T = match read_file(alloc, folder, name, report) {
        Ok(item) => item,
        Err(status) => return status,
    };
    match read_input(alloc, input, report) {
        Ok(bytes) => {
            let given = bytes.as_slice();
            know_bytes(given);
            item.tell(alloc, given, count, out, report)
        }
        Err(status) => status,
    }
}
