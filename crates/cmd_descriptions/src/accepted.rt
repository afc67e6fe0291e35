// The accepted description in a file.
ghost use Rattle.std.specs.Prelude.{◌≡◌, ℕ, List, IfOk, IfErr, OnOk};
ghost use Rattle.lr_tables.specs.Promises.{IsNumbered};
ghost use Rattle.cmd_session.specs.Writing.{change};
ghost use Rattle.cmd_files.specs.Forms.{Holds};
ghost use Rattle.cmd_files.specs.Outsides.{lookup, IsUnfailed, FailsAtMost};
ghost use Rattle.cmd_descriptions.specs.Machines.{machine_of};
ghost use Rattle.cmd_descriptions.specs.Descriptions.{description_form_for, IsAcceptedFor, NotAcceptedFor};

use crate::rules::shown;
use crate::stopping::checked;
use crate::tables::read_tables;
use crate::target_word::TargetWord;
use cmd_session::Status;
use gg_accepted::Accepted;
use gg_outside::{Folder, Sink};
use sel_target::Templates;
use std::alloc::Global;

/// Reads the description in the file `name` of the machine with that word, builds and checks its tables, and shows its rules on the
/// machine `target`. Where it can't, it has written the lines of that refusal to `report` and answers its status.
pub fn read_accepted_for<W: TargetWord, T: Templates, F: Folder, E: Sink>(
    alloc: Global,
    target: T,
    folder: &mut F,
    name: &str,
    report: &mut E,
) -> Result<Accepted<T>, Status>
    ensures description { IfOk result (λ a. Holds (description_form_for W.target_word) (F.holds folder.old name.now) a.content) }
    ensures numbered { IfOk result IsNumbered }
    ensures accepted { IfOk result (λ a. IsAcceptedFor (machine_of W.target_word T.meaning) a.content) }
    ensures unfailed { OnOk result (IsUnfailed (lookup F.Folder folder.old folder.new)) }
    ensures untold { OnOk result (report.new ≡ report.old) }
    ensures refused { IfErr result (λ status. NotAcceptedFor (machine_of W.target_word T.meaning) name.now
        (lookup F.Folder folder.old folder.new) status (change E.Sink report.old report.new)) }
    ensures names { FailsAtMost name.now (lookup F.Folder folder.old folder.new) }
    ensures holds { (n : List ℕ) → F.holds folder.new n ≡ F.holds folder.old n }
{
    let tables = match read_tables::<W, F, E>(alloc, folder, name, report) {
        Ok(tables) => tables,
        Err(status) => return Err(status),
    };
    match checked(alloc, tables, report) {
        Ok(tables) => shown(alloc, tables, target, report),
        Err(status) => Err(status),
    }
}
