// The image of a code.
ghost use Rattle.std.specs.Prelude.{◌≡◌, ◌≤◌, ◌^◌, true, length, count_by};
ghost use Rattle.vax_core.specs.Valid.{is_code};
ghost use Rattle.vax_machine.specs.Loading.{Loads};
ghost use Rattle.vax_image_writing.specs.Texts.{is_marked};
ghost use Rattle.vax_image.specs.Answers.{code_with, Encoded};

use crate::fault::ImageFault;
use std::alloc::Global;
use vax_core::{AreaItem, Code};
use vax_image_branches::growing::places_of;
use vax_image_forms::least_forms;
use vax_image_names::{Labels, link};
use vax_image_writing::{Plan, image_of, marks_in, pieces_of};

/// The longest text section.
pub const SECTION_LIMIT: u64 = 1_073_741_823;

/// The greatest count that a longword holds.
pub const COUNT_LIMIT: usize = 4_294_967_295;

/// Each item has a mark or a byte, so there are fewer in an image.
const ITEM_LIMIT: usize = 8_589_934_592;

// The image of a code that can be run, of a data area and labelled items, so many of which have marks.
#[tactic(auto, using(crate::proofs::EncodingLaws::writing_facts))]
fn write(
    alloc: Global,
    area: &[AreaItem],
    labels: &Labels,
    marks: u32,
) -> Result<Vec<u8>, ImageFault>
    requires valid { is_code (code_with area.now labels.now.items.now) ≡ true }
    requires loads { Loads (code_with area.now labels.now.items.now) }
    requires few { length labels.now.items.now ≤ 2 ^ 33 }
    requires marks { marks ≡ count_by is_marked labels.now.items.now }
    requires small { length area.now ≤ 4294967295 }
    ensures { Encoded (code_with area.now labels.now.items.now) result }
{
    let pieces = pieces_of(alloc, labels)?;
    let forms = least_forms(alloc, &pieces)?;
    let places = places_of(alloc, &pieces, &forms)?;
    if places[pieces.len()] > SECTION_LIMIT {
        return Err(ImageFault::TooLarge);
    }
    let plan = Plan {
        labels,
        forms: &forms,
        places: &places,
    };
    let text = plan.write(alloc)?;
    Ok(image_of(alloc, &text, marks, area)?)
}

// The image of a code that can be run, with its labels.
#[tactic(auto, using(crate::proofs::EncodingLaws::linked_facts))]
fn encode_linked(alloc: Global, code: &Code, labels: &Labels) -> Result<Vec<u8>, ImageFault>
    requires valid { is_code code.now ≡ true }
    requires loads { Loads code.now }
    requires items { labels.now.items.now ≡ code.now.items }
    ensures { Encoded code.now result }
{
    let area = code.area.as_slice();
    let marks = marks_in(labels.items);
    if labels.items.len() > ITEM_LIMIT {
        return Err(ImageFault::TooLarge);
    }
    if marks > COUNT_LIMIT {
        return Err(ImageFault::TooLarge);
    }
    if area.len() > COUNT_LIMIT {
        return Err(ImageFault::TooLarge);
    }
    write(alloc, area, labels, marks as u32)
}

/// The image of a code.
pub fn encode(alloc: Global, code: &Code) -> Result<Vec<u8>, ImageFault>
    requires { is_code code.now ≡ true }
    ensures { Encoded code.now result }
{
    match link(alloc, code)? {
        None => Err(ImageFault::Unlinked),
        Some(labels) => encode_linked(alloc, code, &labels),
    }
}
