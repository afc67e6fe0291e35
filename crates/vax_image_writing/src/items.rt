// The text section of items, with its refs and its marks.
ghost use Rattle.std.specs.Prelude.{◌≡◌, ◌+◌, ◌<◌, ◌≤◌, ◌^◌, ◌++◌, [], ◌∷◌, true, length, OnOk};
ghost use Rattle.gg_base.specs.declared.size.Size.TheVariants.{Long};
ghost use Rattle.vax_core.specs.Valid.{is_code_item};
ghost use Rattle.vax_image_format.specs.Specifiers.{field};

use crate::bytes::{put_name, put_number};
use crate::section::Section;
use gg_base::{Name, Size};
use std::alloc::{AllocError, Global};
use vax_core::CodeItem;

// Appends the mark of a label or a `.globl` line at a place.
fn put_name_mark(marks: &mut Vec<u8>, place: u32, kind: u8, name: &Name) -> Result<(), AllocError>
    requires { length name.now ≤ 64 }
    ensures { OnOk result (marks.new.items ≡ marks.old.items ++ (field Long place ++ kind ∷ (length name.now ∷ name.now))) }
{
    put_number(marks, Size::Long, place)?;
    marks.push(kind)?;
    put_name(marks, name.as_slice())
}

// Appends the mark of an entry mask.
fn put_mask_mark(marks: &mut Vec<u8>, place: u32) -> Result<(), AllocError>
    ensures { OnOk result (marks.new.items ≡ marks.old.items ++ (field Long place ++ 2 ∷ [])) }
{
    put_number(marks, Size::Long, place)?;
    marks.push(2)?;
    Ok(())
}

/// A text section with its refs, and the bytes of its marks.
#[derive(Drop)]
pub struct Text {
    pub section: Section,
    pub marks: Vec<u8>,
}

impl Text {
    ghost use Rattle.vax_image_writing.specs.Written.{IsItemPut};

    /// An item, whose branch has this form and whose label stands at this place.
    #[tactic(auto, using(crate::proofs::TextLaws::item_facts, crate::proofs::AreaLaws::name_short))]
    pub fn item(
        &mut self,
        alloc: Global,
        form: Size,
        to: Option<u32>,
        item: &CodeItem,
    ) -> Result<(), AllocError>
        requires short { length self.old.section.bytes.items + 64 < 2 ^ 32 }
        requires valid { is_code_item item.now ≡ true }
        ensures { OnOk result (IsItemPut self.old self.new form to item.now) }
    {
        let place = self.section.bytes.len() as u32;
        match item {
            CodeItem::Label(name) => put_name_mark(&mut self.marks, place, 0, name),
            CodeItem::Globl(name) => put_name_mark(&mut self.marks, place, 1, name),
            CodeItem::Mask(mask) => {
                put_mask_mark(&mut self.marks, place)?;
                self.section.number(Size::Word, u32::from(*mask))
            }
            CodeItem::Instr(i) => self.section.instr(alloc, form, to, i),
        }
    }
}
