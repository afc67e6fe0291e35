// A command that writes the item of a file in another form.
ghost use Rattle.std.specs.Prelude.{◌≡◌, ℕ, List, IfOk};
ghost use Rattle.cmd_files.specs.Outsides.{outside};
ghost use Rattle.cmd_files.specs.Translations.{IsTranslated};

use crate::forms::FileForm;
use crate::stages::{read_file, write_out};
use cmd_session::{Status, no_memory};
use gg_base::{Bytes, NoMemory};
use gg_outside::{Folder, Sink};
use std::alloc::Global;

/// A form of files whose items can be written in another form.
pub trait Translates: FileForm {
    /// The bytes that say the same as the item.
    fn translate(&self, alloc: Global) -> Result<Bytes, NoMemory>
        ensures { IfOk result (λ bytes. Self.becomes (Self.item self.now) bytes) };
}

/// Reads the file `name` by its form, and writes the bytes that say the same as its item to `out`. A refusal writes one line to
/// `report`. Nothing is written to `out` before all of the bytes are there.
pub fn translate_file<T: Translates, F: Folder, O: Sink, E: Sink>(
    alloc: Global,
    name: &str,
    folder: &mut F,
    out: &mut O,
    report: &mut E,
) -> Status
    // What each status says of the file and of what both outputs gained; that each comes where its cause is there; and what is asked of the
    // folder.
    ensures translates { IsTranslated (record { form = T.form; becomes = T.becomes }) result name.now
        (outside F.Folder O.Sink E.Sink folder.old folder.new out.old out.new report.old report.new) }
    // The folder stays as it was.
    ensures holds { (n : List ℕ) → F.holds folder.new n ≡ F.holds folder.old n }
{
    let item: T = match read_file(alloc, folder, name, report) {
        Ok(item) => item,
        Err(status) => return status,
    };
    let Ok(bytes) = item.translate(alloc) else {
        return no_memory(report);
    };
    match write_out(out, bytes.as_slice(), report) {
        Ok(()) => Status::Done,
        Err(status) => status,
    }
}
