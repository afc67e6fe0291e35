// The command `image A`.
ghost use Rattle.std.specs.Prelude.{◌≡◌, ℕ, List};
ghost use Rattle.cmd_files.specs.Outsides.{outside};
ghost use Rattle.cmd_files.specs.Translations.{IsTranslated};
ghost use Rattle.cmd_image.specs.Texts.{image_of_text};

use crate::text::LoadedText;
use cmd_files::translate_file;
use cmd_session::Status;
use gg_outside::{Folder, Sink};
use std::alloc::Global;

/// The command `image A`: reads the assembly text `name`, sees whether its code can be run, and writes the code's binary image to `out`. A
/// refusal writes one line to `report`. Nothing of the input is taken, and nothing is written to `out` before the whole image is there.
pub fn write_image<F: Folder, O: Sink, E: Sink>(
    alloc: Global,
    name: &str,
    folder: &mut F,
    out: &mut O,
    report: &mut E,
) -> Status
    // What each status says of the file, of its code's image and of what both outputs gained; that each comes where its cause is there; and
    // what is asked of the folder.
    ensures translates { IsTranslated image_of_text result name.now
        (outside F.Folder O.Sink E.Sink folder.old folder.new out.old out.new report.old report.new) }
    // The folder stays as it was.
    ensures holds { (n : List ℕ) → F.holds folder.new n ≡ F.holds folder.old n }
{
    translate_file::<LoadedText, F, O, E>(alloc, name, folder, out, report)
}
