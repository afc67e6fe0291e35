// The code of an image, whose fields may still be longer than an image's are.
ghost use Rattle.std.specs.Prelude.{◌≡◌, ◌<◌, ◌^◌, length};
ghost use Rattle.std.specs.Option.{option_copied};
ghost use Rattle.vax_image_reading.specs.Decoding.{behind_magic, behind_refs, behind_marks, behind_text, read_loosely};
ghost use Rattle.vax_image_reading.specs.Views.{GivesCode};

use crate::fault::DecodeFault;
use crate::items::read_items;
use crate::parts::{long, read_list, taken};
use std::alloc::Global;
use vax_core::{AreaItem, AreaItems, Code, CodeItems};
use vax_image_format::{Mark, Ref};

// What is left behind the first four bytes of an image.
fn behind_magic(bytes: &[u8]) -> Option<&[u8]>
    ensures { behind_magic bytes.now ≡ option_copied result }
{
    bytes.strip_prefix(b"GGI1")
}

// The area behind the refs, and then the items by the marks and refs.
fn behind_refs(
    alloc: Global,
    text: &[u8],
    marks: &[Mark],
    refs: &[Ref],
    bytes: &[u8],
) -> Result<Code, DecodeFault>
    requires { length text.now < 2 ^ 32 }
    ensures { GivesCode result (behind_refs text.now marks.now (refs.now, bytes.now)) }
{
    let (area, rest) = read_list::<AreaItem>(alloc, bytes)?;
    if !rest.is_empty() {
        return Err(DecodeFault::NotImage);
    }
    let items = read_items(alloc, text, marks, refs)?;
    Ok(Code {
        area: AreaItems::from_vec(area),
        items: CodeItems::from_vec(items),
    })
}

fn behind_marks(
    alloc: Global,
    text: &[u8],
    marks: &[Mark],
    bytes: &[u8],
) -> Result<Code, DecodeFault>
    requires { length text.now < 2 ^ 32 }
    ensures { GivesCode result (behind_marks text.now (marks.now, bytes.now)) }
{
    let (refs, rest) = read_list::<Ref>(alloc, bytes)?;
    behind_refs(alloc, text, marks, &refs, rest)
}

fn behind_text(alloc: Global, text: &[u8], bytes: &[u8]) -> Result<Code, DecodeFault>
    requires { length text.now < 2 ^ 32 }
    ensures { GivesCode result (behind_text (text.now, bytes.now)) }
{
    let (marks, rest) = read_list::<Mark>(alloc, bytes)?;
    behind_marks(alloc, text, &marks, rest)
}

/// The code of an image. Where the bytes are no image, NotImage or some code.
#[tactic(auto, unfolding(crate::specs::Decoding::read_loosely))]
pub fn read_code(alloc: Global, bytes: &[u8]) -> Result<Code, DecodeFault>
    ensures { GivesCode result (read_loosely bytes.now) }
{
    let Some(rest) = behind_magic(bytes) else {
        return Err(DecodeFault::NotImage);
    };
    let (count, rest) = long(rest)?;
    let Some((text, rest)) = taken(count as usize, rest) else {
        return Err(DecodeFault::NotImage);
    };
    behind_text(alloc, text, rest)
}
