// Binary images as files whose codes have texts.
ghost use Rattle.std.specs.Prelude.{◌≡◌, true, IfOk};
ghost use Rattle.vax_core.specs.Valid.{is_code};
ghost use Rattle.cmd_text.specs.Images.{no_image_line};

use cmd_files::{FileForm, Refusal, Translates};
use cmd_session::Status;
use gg_base::{Bytes, NoMemory, Text};
use std::alloc::Global;
use vax_core::Code;
use vax_image::{DecodeFault, decode};
use vax_image_reading::laws::images_are_read;
use vax_writer::write_code;

/// The longest binary image that is read.
pub const IMAGE_LIMIT: u64 = 134_217_728;

/// The code of a binary image: a valid one.
#[derive(Drop)]
pub struct CodeImage {
    code: Code,
    ghost valid: { is_code code ≡ true },
}

// The line that refuses what is no code's image.
fn no_image_line(alloc: Global) -> Result<Text, NoMemory>
    ensures { IfOk result (λ text. text ≡ no_image_line) }
{
    Ok(Text::from_vec(Vec::from_slice(alloc, b"ggvax: no image\n")?))
}

impl FileForm for CodeImage {
    ghost use Rattle.vax_core.specs.declared.code.Code.{Code};
    ghost use Rattle.cmd_files.specs.Forms.{not_run};
    ghost use Rattle.cmd_text.specs.Images.{image_form, IsTextOf};

    ghost Item = { Code };

    ghost form = { image_form };

    ghost runner = { not_run };

    ghost becomes = { IsTextOf };

    ghost item = { λ t. t.code };

    fn limit() -> u64 {
        IMAGE_LIMIT
    }

    fn status() -> Status {
        Status::ImageRefused
    }

    #[tactic(auto, using(crate::proofs::Reading::reading_facts))]
    fn read(alloc: Global, bytes: &[u8]) -> Result<Self, Refusal> {
        images_are_read();
        match decode(alloc, bytes) {
            Ok(code) => Ok(CodeImage { code }),
            Err(DecodeFault::NoMemory) => Err(Refusal::NoMemory),
            Err(DecodeFault::NotImage) => {
                let line = no_image_line(alloc)?;
                Err(Refusal::Line(line))
            }
        }
    }
}

impl Translates for CodeImage {
    fn translate(&self, alloc: Global) -> Result<Bytes, NoMemory> {
        let mut text = String::new(alloc);
        write_code(&self.code, &mut text)?;
        Ok(Bytes::from_vec(text.into_bytes()))
    }
}
