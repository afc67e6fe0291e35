// The check of a description.
ghost use Rattle.std.specs.Prelude.{◌≡◌, ℕ, List};
ghost use Rattle.cmd_files.specs.Outsides.{lookup, outside, FailsAtMost};
ghost use Rattle.cmd_descriptions.specs.Machines.{machine_of};
ghost use Rattle.cmd_descriptions.specs.Outcome.{LeavesFor};
ghost use Rattle.cmd_descriptions.specs.Exact.{IsExactFor};

use crate::accepted::read_accepted_for;
use crate::lines::ok_line;
use crate::target_word::TargetWord;
use cmd_files::write_out;
use cmd_session::{Status, no_memory};
use gg_base::NoMemory;
use gg_outside::{Folder, Sink};
use sel_target::Templates;
use std::alloc::Global;

// The check, with what each of its statuses says.
fn read_and_tell<W: TargetWord, T: Templates, F: Folder, O: Sink, E: Sink>(
    alloc: Global,
    target: T,
    name: &str,
    folder: &mut F,
    out: &mut O,
    report: &mut E,
) -> Status
    ensures leaves { LeavesFor (machine_of W.target_word T.meaning) result name.now
        (outside F.Folder O.Sink E.Sink folder.old folder.new out.old out.new report.old report.new) }
    ensures names { FailsAtMost name.now (lookup F.Folder folder.old folder.new) }
    ensures holds { (n : List ℕ) → F.holds folder.new n ≡ F.holds folder.old n }
{
    let accepted = match read_accepted_for::<W, T, F, E>(alloc, target, folder, name, report) {
        Ok(accepted) => accepted,
        Err(status) => return status,
    };
    match ok_line(alloc, accepted.rules(), accepted.states()) {
        Ok(line) => match write_out(out, line.as_slice(), report) {
            Ok(()) => Status::Done,
            Err(status) => status,
        },
        Err(NoMemory) => no_memory(report),
    }
}

/// Checks a description: reads the description `name` of the machine with that word, builds its tables, checks that no tree stops the
/// parse by them, and shows its rules on the machine `target`. Then it writes to `out` how many rules the description has and how many
/// states its tables. A refusal writes its lines to `report`. Nothing of the input is taken.
pub fn check_for<W: TargetWord, T: Templates, F: Folder, O: Sink, E: Sink>(
    alloc: Global,
    target: T,
    name: &str,
    folder: &mut F,
    out: &mut O,
    report: &mut E,
) -> Status
    // What each status says of the file, of its tables and rules, and of what both outputs gained.
    ensures leaves { LeavesFor (machine_of W.target_word T.meaning) result name.now
        (outside F.Folder O.Sink E.Sink folder.old folder.new out.old out.new report.old report.new) }
    // And that each comes where its cause is there, but for counted faults and want of memory.
    ensures exact { IsExactFor (machine_of W.target_word T.meaning) result name.now
        (outside F.Folder O.Sink E.Sink folder.old folder.new out.old out.new report.old report.new) }
    // The folder is asked for that name alone, and stays as it was.
    ensures names { FailsAtMost name.now (lookup F.Folder folder.old folder.new) }
    ensures holds { (n : List ℕ) → F.holds folder.new n ≡ F.holds folder.old n }
{
    read_and_tell::<W, T, F, O, E>(alloc, target, name, folder, out, report)
}
