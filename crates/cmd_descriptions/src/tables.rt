// The tables of a description in a file.
ghost use Rattle.std.specs.Prelude.{◌≡◌, ℕ, List, IfOk, IfErr, OnOk};
ghost use Rattle.lr_tables.specs.Promises.{IsNumbered, HasTooManySets};
ghost use Rattle.cmd_session.specs.Writing.{change};
ghost use Rattle.cmd_files.specs.Forms.{Holds};
ghost use Rattle.cmd_files.specs.Outsides.{lookup, IsUnfailed, FailsAtMost};
ghost use Rattle.cmd_descriptions.specs.Descriptions.{description_form_for, BuildRefused, TablesRefused};

use crate::description::DescriptionText;
use crate::target_word::TargetWord;
use cmd_files::read_file;
use cmd_session::{Status, no_memory, refuse};
use gg_outside::{Folder, Sink};
use lr_tables::{BuildFault, Tables, build};
use md_reader::Description;
use std::alloc::Global;

// The tables of a description.
fn build_tables<E: Sink>(
    alloc: Global,
    description: Description,
    report: &mut E,
) -> Result<Tables, Status>
    ensures tables { IfOk result (λ t. t.content ≡ description) }
    ensures numbered { IfOk result IsNumbered }
    ensures few { OnOk result (¬ HasTooManySets description) }
    ensures untold { OnOk result (report.new ≡ report.old) }
    ensures refused { IfErr result (λ status. BuildRefused description status
        (change E.Sink report.old report.new)) }
{
    match build(alloc, description) {
        Ok(tables) => {
            tables.is_numbered();
            Ok(tables)
        }
        Err((_, BuildFault::NoMemory)) => Err(no_memory(report)),
        Err((_, BuildFault::TablesFull)) => Err(refuse(
            report,
            b"ggvax: more than 4096 item sets\n",
            Status::Full,
        )),
    }
}

/// Reads the description of that machine in the file `name` and builds its tables. Where it can't, it has written one line to `report`
/// and answers the status of that refusal.
pub fn read_tables<W: TargetWord, F: Folder, E: Sink>(
    alloc: Global,
    folder: &mut F,
    name: &str,
    report: &mut E,
) -> Result<Tables, Status>
    ensures description { IfOk result (λ t. Holds (description_form_for W.target_word) (F.holds folder.old name.now) t.content) }
    ensures numbered { IfOk result IsNumbered }
    ensures few { IfOk result (λ t. ¬ HasTooManySets t.content) }
    ensures unfailed { OnOk result (IsUnfailed (lookup F.Folder folder.old folder.new)) }
    ensures untold { OnOk result (report.new ≡ report.old) }
    ensures refused { IfErr result (λ status. TablesRefused W.target_word name.now
        (lookup F.Folder folder.old folder.new) status (change E.Sink report.old report.new)) }
    ensures names { FailsAtMost name.now (lookup F.Folder folder.old folder.new) }
    ensures holds { (n : List ℕ) → F.holds folder.new n ≡ F.holds folder.old n }
{
    match read_file::<DescriptionText<W>, F, E>(alloc, folder, name, report) {
        Ok(text) => build_tables(alloc, text.description, report),
        Err(status) => Err(status),
    }
}
