// Assembly texts of codes that can be run, as files whose codes have images.
ghost use Rattle.std.specs.Prelude.{◌≡◌, ◌≤◌, true, length, IfOk};
ghost use Rattle.vax_core.specs.Text.{asm_text};
ghost use Rattle.vax_core.specs.Valid.{is_code};
ghost use Rattle.vax_machine.specs.Loading.{Loads, load_fault};
ghost use Rattle.cmd_run.specs.Texts.{text_limit};

use cmd_files::{FileForm, Refusal, Translates};
use cmd_run::lines::{load_line, wrong_line};
use cmd_session::Status;
use gg_base::limits::TEXT_LIMIT;
use gg_base::{Bytes, NoMemory};
use std::alloc::Global;
use vax_core::Code;
use vax_image::{ImageFault, encode};
use vax_machine::{LoadFault, load};
use vax_reader::{AsmFault, read_code};

/// The code of an assembly text: a valid one, which can be run, and whose text is no longer than a text may be.
#[derive(Drop)]
pub struct LoadedText {
    code: Code,
    ghost valid: { is_code code ≡ true },
    ghost loads: { Loads code },
    ghost short: { length (asm_text code) ≤ text_limit },
}

// What keeps a code from being run, if anything does.
fn fault_of(alloc: Global, code: &Code) -> Result<Option<LoadFault>, NoMemory>
    requires { is_code code.now ≡ true }
    ensures { IfOk result (λ fault. load_fault code.now ≡ fault) }
{
    match load(alloc, code, &[]) {
        Ok(_) => Ok(None),
        Err(LoadFault::NoMemory) => Err(NoMemory),
        Err(fault) => Ok(Some(fault)),
    }
}

impl FileForm for LoadedText {
    ghost use Rattle.vax_core.specs.declared.code.Code.{Code};
    ghost use Rattle.cmd_files.specs.Forms.{not_run};
    ghost use Rattle.vax_image_format.specs.Image.{IsImage};
    ghost use Rattle.cmd_image.specs.Texts.{loaded_form};

    ghost Item = { Code };

    ghost form = { loaded_form };

    ghost runner = { not_run };

    ghost becomes = { IsImage };

    ghost item = { λ t. t.code };

    fn limit() -> u64 {
        TEXT_LIMIT
    }

    fn status() -> Status {
        Status::AsmRefused
    }

    #[tactic(auto, using(crate::proofs::Reading::reading_facts))]
    fn read(alloc: Global, bytes: &[u8]) -> Result<Self, Refusal> {
        let code = match read_code(alloc, bytes) {
            Ok(code) => code,
            Err(AsmFault::NoMemory) => return Err(Refusal::NoMemory),
            Err(AsmFault::Line { line, kind }) => {
                let line = wrong_line(alloc, line, kind)?;
                return Err(Refusal::Line(line));
            }
        };
        match fault_of(alloc, &code)? {
            None => Ok(LoadedText { code }),
            Some(fault) => {
                let line = load_line(alloc, &fault)?;
                Err(Refusal::Line(line))
            }
        }
    }
}

impl Translates for LoadedText {
    #[tactic(auto, using(crate::proofs::Sizes::not_too_large))]
    fn translate(&self, alloc: Global) -> Result<Bytes, NoMemory> {
        match encode(alloc, &self.code) {
            Ok(image) => Ok(Bytes::from_vec(image)),
            Err(ImageFault::NoMemory) => Err(NoMemory),
            // The code can be run, and a section is at most eight times as long as its text.
            Err(ImageFault::Unlinked) | Err(ImageFault::TooLarge) => unreachable!(),
        }
    }
}
