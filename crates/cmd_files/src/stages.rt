// The parts of a command. Each answers what it made, or the status of the refusal that it has told.
ghost use Rattle.std.specs.Prelude.{◌≡◌, ◌≤◌, ◌+◌, ℕ, List, length, IfOk, IfErr, OnOk};
ghost use Rattle.cmd_session.specs.Reading.{intake, GivesAll, IsUnbroken, TakesAtMost};
ghost use Rattle.cmd_session.specs.Writing.{change, TakesAll};
ghost use Rattle.cmd_files.specs.Forms.{Holds};
ghost use Rattle.cmd_files.specs.Outsides.{lookup, IsUnfailed, FailsAtMost};
ghost use Rattle.cmd_files.specs.Stages.{input_limit, FileRefused, InputRefused, OutputRefused};

use crate::forms::{FileForm, Refusal};
use cmd_session::lines::{cannot_read_line, too_long_line};
use cmd_session::{InputFault, Status, no_memory, read_all, refuse, refuse_with, write_all};
use gg_base::Bytes;
use gg_base::limits::SOURCE_LIMIT;
use gg_outside::{Folder, FolderFault, Sink, SinkFault, Source};
use std::alloc::Global;

/// Reads the file of that name by its form.
pub fn read_file<T: FileForm, F: Folder, E: Sink>(
    alloc: Global,
    folder: &mut F,
    name: &str,
    report: &mut E,
) -> Result<T, Status>
    ensures item { IfOk result (λ x. Holds T.form (F.holds folder.old name.now) (T.item x)) }
    ensures unfailed { OnOk result (IsUnfailed (lookup F.Folder folder.old folder.new)) }
    ensures untold { OnOk result (report.new ≡ report.old) }
    ensures refused { IfErr result (λ status. FileRefused T.form name.now
        (lookup F.Folder folder.old folder.new) status (change E.Sink report.old report.new)) }
    ensures names { FailsAtMost name.now (lookup F.Folder folder.old folder.new) }
    ensures holds { (n : List ℕ) → F.holds folder.new n ≡ F.holds folder.old n }
{
    let mut bytes = Vec::new(alloc);
    match folder.read_whole(name, T::limit(), &mut bytes) {
        Ok(()) => {}
        Err(FolderFault::NoMemory) => return Err(no_memory(report)),
        Err(FolderFault::Failed) => {
            let line = cannot_read_line(alloc, name);
            return Err(refuse_with(report, line, Status::FileFault));
        }
        Err(FolderFault::TooLong) => {
            let line = too_long_line(alloc, name);
            return Err(refuse_with(report, line, Status::TooLong));
        }
    }
    match T::read(alloc, bytes.as_slice()) {
        Ok(item) => Ok(item),
        Err(Refusal::NoMemory) => Err(no_memory(report)),
        Err(Refusal::Line(line)) => Err(refuse(report, line.as_slice(), T::status())),
    }
}

/// Reads the whole input, of at most `SOURCE_LIMIT` bytes. No more than one byte beyond that is taken.
pub fn read_input<I: Source, E: Sink>(
    alloc: Global,
    input: &mut I,
    report: &mut E,
) -> Result<Bytes, Status>
    ensures whole { IfOk result (λ bytes. GivesAll (intake I.Source input.old input.new) bytes) }
    ensures within { IfOk result (λ bytes. length bytes ≤ input_limit) }
    ensures unbroken { OnOk result (IsUnbroken (intake I.Source input.old input.new)) }
    ensures untold { OnOk result (report.new ≡ report.old) }
    ensures refused { IfErr result (λ status. InputRefused (intake I.Source input.old input.new) status
        (change E.Sink report.old report.new)) }
    ensures taken { TakesAtMost (input_limit + 1) (intake I.Source input.old input.new) }
{
    match read_all(alloc, input, SOURCE_LIMIT as usize) {
        Ok(bytes) => Ok(bytes),
        Err(InputFault::NoMemory) => Err(no_memory(report)),
        Err(InputFault::Failed) => Err(refuse(
            report,
            b"ggvax: input failed\n",
            Status::InputFault,
        )),
        Err(InputFault::TooLong) => Err(refuse(
            report,
            b"ggvax: input is too long\n",
            Status::TooLong,
        )),
    }
}

/// Writes all of the bytes to the output.
pub fn write_out<O: Sink, E: Sink>(out: &mut O, bytes: &[u8], report: &mut E) -> Result<(), Status>
    ensures all { OnOk result (TakesAll (change O.Sink out.old out.new) bytes.now) }
    ensures untold { OnOk result (report.new ≡ report.old) }
    ensures refused { IfErr result (λ status. OutputRefused bytes.now status
        (change O.Sink out.old out.new) (change E.Sink report.old report.new)) }
{
    match write_all(out, bytes) {
        Ok(()) => Ok(()),
        Err(SinkFault::NoMemory) => Err(no_memory(report)),
        Err(SinkFault::Failed) => Err(refuse(
            report,
            b"ggvax: output failed\n",
            Status::WriteFault,
        )),
    }
}
