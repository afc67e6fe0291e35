// The command `check32 D`.
ghost use Rattle.std.specs.Prelude.{◌≡◌, ℕ, List};
ghost use Rattle.cmd_files.specs.Outsides.{lookup, outside, FailsAtMost};
ghost use Rattle.cmd_descriptions.specs.Outcome.{LeavesFor};
ghost use Rattle.cmd_descriptions.specs.Exact.{IsExactFor};
ghost use Rattle.cmd_check32.specs.Machine.{the_l32};

use cmd_descriptions::{TargetWord, check_for};
use cmd_session::Status;
use gg_outside::{Folder, Sink};
use l32_target::L32;
use std::alloc::Global;

/// The word of L32.
#[derive(Drop)]
pub struct L32Word;

impl TargetWord for L32Word {
    ghost use Rattle.std.specs.Prelude.{codes};

    ghost target_word = { codes "l32" };

    fn target_word() -> &'static str {
        "l32"
    }
}

/// The command `check32 D`: reads the machine description `name` of L32, builds its tables, checks that no tree stops the parse by them,
/// and shows its rules on L32. Then it writes to `out` how many rules the description has and how many states its tables. A refusal writes
/// its lines to `report`. Nothing of the input is taken.
pub fn check_description32<F: Folder, O: Sink, E: Sink>(
    alloc: Global,
    name: &str,
    folder: &mut F,
    out: &mut O,
    report: &mut E,
) -> Status
    // What each status says of the file, of its tables and rules, and of what both outputs gained.
    ensures leaves { LeavesFor the_l32 result name.now
        (outside F.Folder O.Sink E.Sink folder.old folder.new out.old out.new report.old report.new) }
    // And that each comes where its cause is there, but for counted faults and want of memory.
    ensures exact { IsExactFor the_l32 result name.now
        (outside F.Folder O.Sink E.Sink folder.old folder.new out.old out.new report.old report.new) }
    // The folder is asked for that name alone, and stays as it was.
    ensures names { FailsAtMost name.now (lookup F.Folder folder.old folder.new) }
    ensures holds { (n : List ℕ) → F.holds folder.new n ≡ F.holds folder.old n }
{
    check_for::<L32Word, L32, F, O, E>(alloc, L32, name, folder, out, report)
}
