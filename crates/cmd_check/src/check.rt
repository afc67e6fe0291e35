// The command `check D`.
ghost use Rattle.std.specs.Prelude.{◌≡◌, ℕ, List};
ghost use Rattle.cmd_files.specs.Outsides.{lookup, outside, FailsAtMost};
ghost use Rattle.cmd_check.specs.Outcome.{Leaves};
ghost use Rattle.cmd_check.specs.Exact.{IsExact};

use crate::word::VaxWord;
use cmd_descriptions::check_for;
use cmd_session::Status;
use gg_outside::{Folder, Sink};
use std::alloc::Global;
use vax_target::Vax;

/// The command `check D`: reads the machine description `name`, builds its tables, checks that no tree stops the parse by them, and shows
/// its rules on the VAX. Then it writes to `out` how many rules the description has and how many states its tables. A refusal writes its
/// lines to `report`. Nothing of the input is taken.
pub fn check_description<F: Folder, O: Sink, E: Sink>(
    alloc: Global,
    name: &str,
    folder: &mut F,
    out: &mut O,
    report: &mut E,
) -> Status
    // What each status says of the file, of its tables and rules, and of what both outputs gained.
    ensures leaves { Leaves result name.now (outside F.Folder O.Sink E.Sink folder.old folder.new out.old out.new report.old report.new) }
    // And that each comes where its cause is there, but for counted faults and want of memory.
    ensures exact { IsExact result name.now (outside F.Folder O.Sink E.Sink folder.old folder.new out.old out.new report.old report.new) }
    // The folder is asked for that name alone, and stays as it was.
    ensures names { FailsAtMost name.now (lookup F.Folder folder.old folder.new) }
    ensures holds { (n : List ℕ) → F.holds folder.new n ≡ F.holds folder.old n }
{
    check_for::<VaxWord, Vax, F, O, E>(alloc, Vax, name, folder, out, report)
}
