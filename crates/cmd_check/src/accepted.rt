// The accepted description in a file.
ghost use Rattle.std.specs.Prelude.{◌≡◌, ℕ, List, IfOk, IfErr, OnOk};
ghost use Rattle.lr_tables.specs.Promises.{IsNumbered};
ghost use Rattle.cmd_session.specs.Writing.{change};
ghost use Rattle.cmd_files.specs.Forms.{Holds};
ghost use Rattle.cmd_files.specs.Outsides.{lookup, IsUnfailed, FailsAtMost};
ghost use Rattle.cmd_check.specs.Descriptions.{description_form, IsAccepted, NotAccepted};

use crate::word::VaxWord;
use cmd_descriptions::{Accepted, read_accepted_for};
use cmd_session::Status;
use gg_outside::{Folder, Sink};
use std::alloc::Global;
use vax_target::Vax;

/// Reads the machine description in the file `name`, builds and checks its tables, and shows its rules on the VAX. Where it can't, it has
/// written the lines of that refusal to `report` and answers its status.
pub fn read_accepted<F: Folder, E: Sink>(
    alloc: Global,
    folder: &mut F,
    name: &str,
    report: &mut E,
) -> Result<Accepted<Vax>, Status>
    ensures description { IfOk result (λ a. Holds description_form (F.holds folder.old name.now) a.content) }
    ensures numbered { IfOk result IsNumbered }
    ensures accepted { IfOk result (λ a. IsAccepted a.content) }
    ensures unfailed { OnOk result (IsUnfailed (lookup F.Folder folder.old folder.new)) }
    ensures untold { OnOk result (report.new ≡ report.old) }
    ensures refused { IfErr result (λ status. NotAccepted name.now
        (lookup F.Folder folder.old folder.new) status (change E.Sink report.old report.new)) }
    ensures names { FailsAtMost name.now (lookup F.Folder folder.old folder.new) }
    ensures holds { (n : List ℕ) → F.holds folder.new n ≡ F.holds folder.old n }
{
    read_accepted_for::<VaxWord, Vax, F, E>(alloc, Vax, folder, name, report)
}
