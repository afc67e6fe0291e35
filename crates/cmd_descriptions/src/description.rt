// Machine descriptions as files.
ghost use Rattle.std.specs.Prelude.{◌≤◌, length, IfOk, IfErr};
ghost use Rattle.gg_base.specs.declared.limits.TheConstants.{DESCRIPTION_LIMIT};
ghost use Rattle.cmd_files.specs.Forms.{IsReadAs};
ghost use Rattle.cmd_files.specs.Refusals.{Refuses};
ghost use Rattle.cmd_descriptions.specs.Descriptions.{description_form_for};

use crate::lines::wrong_line;
use crate::target_word::TargetWord;
use cmd_files::{FileForm, Refusal};
use cmd_session::Status;
use gg_base::limits::DESCRIPTION_LIMIT;
use md_reader::{DescFault, Description, read_description_for};
use std::alloc::Global;
use std::marker::PhantomData;

/// A machine description that was read, for the machine with that word.
#[derive(Drop)]
pub struct DescriptionText<W: TargetWord> {
    pub description: Description,
    pub word: PhantomData<W>,
}

// The description for the target of that word that the bytes are, or the line that refuses them.
fn read_for(alloc: Global, bytes: &[u8], word: &[u8]) -> Result<Description, Refusal>
    requires { length bytes.now ≤ DESCRIPTION_LIMIT }
    ensures read { IfOk result (λ d. IsReadAs (description_form_for word.now) bytes.now d) }
    ensures refused { IfErr result (Refuses (description_form_for word.now) bytes.now) }
{
    match read_description_for(alloc, bytes, word) {
        Ok(description) => Ok(description),
        Err(DescFault::NoMemory) => Err(Refusal::NoMemory),
        Err(DescFault::Line { line, kind }) => {
            let line = wrong_line(alloc, line, kind)?;
            Err(Refusal::Line(line))
        }
    }
}

impl<W: TargetWord> FileForm for DescriptionText<W> {
    ghost use Rattle.cmd_files.specs.Forms.{not_run, not_translated};
    ghost use Rattle.md_reader.specs.State.{Content};
    ghost use Rattle.cmd_descriptions.specs.Descriptions.{description_form_for};

    ghost Item = { Content };

    ghost form = { description_form_for W.target_word };

    ghost runner = { not_run };

    ghost becomes = { not_translated };

    ghost item = { λ t. t.description };

    fn limit() -> u64 {
        DESCRIPTION_LIMIT
    }

    fn status() -> Status {
        Status::DescRefused
    }

    fn read(alloc: Global, bytes: &[u8]) -> Result<Self, Refusal> {
        match read_for(alloc, bytes, W::target_word().as_bytes()) {
            Ok(description) => Ok(DescriptionText {
                description,
                word: PhantomData,
            }),
            Err(refusal) => Err(refusal),
        }
    }
}
