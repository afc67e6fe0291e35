// The command `text I`.
ghost use Rattle.std.specs.Prelude.{◌≡◌, ℕ, List};
ghost use Rattle.cmd_files.specs.Outsides.{outside};
ghost use Rattle.cmd_files.specs.Translations.{IsTranslated};
ghost use Rattle.cmd_text.specs.Images.{text_of_image};

use crate::image::CodeImage;
use cmd_files::translate_file;
use cmd_session::Status;
use gg_outside::{Folder, Sink};
use std::alloc::Global;

/// The command `text I`: reads the binary image `name`, and writes the assembly text of the code whose image it is to `out`. A refusal
/// writes one line to `report`. Nothing of the input is taken, and nothing is written to `out` before the whole text is there.
pub fn write_text<F: Folder, O: Sink, E: Sink>(
    alloc: Global,
    name: &str,
    folder: &mut F,
    out: &mut O,
    report: &mut E,
) -> Status
    // What each status says of the file, of its code's text and of what both outputs gained; that each comes where its cause is there; and
    // what is asked of the folder.
    ensures translates { IsTranslated text_of_image result name.now
        (outside F.Folder O.Sink E.Sink folder.old folder.new out.old out.new report.old report.new) }
    // The folder stays as it was.
    ensures holds { (n : List ℕ) → F.holds folder.new n ≡ F.holds folder.old n }
{
    translate_file::<CodeImage, F, O, E>(alloc, name, folder, out, report)
}
