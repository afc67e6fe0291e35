// The code of an image.
ghost use Rattle.vax_image.specs.Answers.{Decoded};

use crate::encoding::encode;
use crate::fault::ImageFault;
use std::alloc::Global;
use vax_core::Code;
use vax_image_reading::{DecodeFault, read_code};

/// The code whose image these bytes are. What is read is written again, so that no longer field, wrong ref or other spelling is taken.
#[tactic(auto, using(crate::proofs::DecodingLaws::decoding_facts))]
pub fn decode(alloc: Global, bytes: &[u8]) -> Result<Code, DecodeFault>
    ensures { Decoded bytes.now result }
{
    let code = match read_code(alloc, bytes) {
        Ok(code) => code,
        Err(fault) => return Err(fault),
    };
    if !code.valid() {
        return Err(DecodeFault::NotImage);
    }
    match encode(alloc, &code) {
        Ok(again) => if again.as_slice() == bytes {
            Ok(code)
        } else {
            Err(DecodeFault::NotImage)
        },
        Err(ImageFault::NoMemory) => Err(DecodeFault::NoMemory),
        Err(ImageFault::Unlinked) => Err(DecodeFault::NotImage),
        Err(ImageFault::TooLarge) => Err(DecodeFault::NotImage),
    }
}
