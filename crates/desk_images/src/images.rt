// Why bytes are no binary image.
use desk_page::advice::IMAGES;
use desk_page::put_advice;
use gg_base::NoMemory;
use std::alloc::Global;
use vax_image::{DecodeFault, decode};

/// The most bytes of an image that is read.
pub const IMAGE_LIMIT: u64 = 134_217_728;

/// Adds whether the bytes are a code's binary image.
pub fn put_why_image(
    alloc: Global,
    name: &str,
    bytes: &[u8],
    told: &mut String,
) -> Result<(), NoMemory> {
    if bytes.len() as u64 > IMAGE_LIMIT {
        writeln!(
            told,
            "{name} is too long: an image has at most {IMAGE_LIMIT} bytes"
        )?;
        return Ok(());
    }
    match decode(alloc, bytes) {
        Ok(_) => {
            writeln!(told, "{name}: a binary image, and nothing is wrong with it")?;
            Ok(())
        }
        Err(DecodeFault::NoMemory) => Err(NoMemory),
        Err(DecodeFault::NotImage) => {
            writeln!(told, "{name}: no image")?;
            put_advice(told, &IMAGES, "no image")
        }
    }
}
