// The text section of a code, with its refs and its marks.
ghost use Rattle.std.specs.Prelude.{◌≡◌, true, IfOk, count_by};
ghost use Rattle.std.specs.List.{list_all};
ghost use Rattle.std.specs.Option.{option_copied};
ghost use Rattle.vax_core.specs.Valid.{is_code_item};
ghost use Rattle.vax_image_format.specs.Image.{label_at};
ghost use Rattle.vax_image_writing.specs.Texts.{target_of, target_place, is_marked, IsText};

use crate::items::Text;
use crate::plan::Plan;
use crate::section::Section;
use gg_base::Name;
use std::alloc::{AllocError, Global};
use vax_core::CodeItem;

// The label that an item goes to.
fn target_of(item: &CodeItem) -> Option<&Name>
    ensures { option_copied result ≡ target_of item.now }
{
    match item {
        CodeItem::Label(_) | CodeItem::Globl(_) | CodeItem::Mask(_) => None,
        CodeItem::Instr(i) => i.target.as_ref(),
    }
}

fn is_marked(item: &CodeItem) -> bool
    ensures { result ≡ is_marked item.now }
{
    match item {
        CodeItem::Label(_) | CodeItem::Globl(_) | CodeItem::Mask(_) => true,
        CodeItem::Instr(_) => false,
    }
}

/// How many marks items have.
pub fn marks_in(items: &[CodeItem]) -> usize
    ensures { result ≡ count_by is_marked items.now }
{
    let mut count = 0;
    let mut left = items;
    while let [item, others @ ..] = left {
        if is_marked(item) {
            count += 1;
        }
        left = others;
    }
    count
}

impl Plan<'_> {
    // The place of a target; a service has none.
    #[tactic(auto, using(crate::proofs::TextLaws::target_facts))]
    fn target_place(&self, target: Option<&Name>) -> Option<u32>
        ensures { result ≡ target_place (label_at self.now.labels.now.items.now self.now.forms.now) (option_copied target.entry) }
    {
        let Some(label) = target else {
            return None;
        };
        let Some(number) = self.labels.find(label.as_slice()) else {
            return None;
        };
        Some(self.places[number] as u32)
    }

    /// The text section with its refs and marks.
    #[tactic(auto, using(crate::proofs::TextLaws::text_steps))]
    pub fn write(&self, alloc: Global) -> Result<Text, AllocError>
        requires { list_all is_code_item self.now.labels.now.items.now ≡ true }
        ensures { IfOk result (IsText self.now.labels.now.items.now self.now.forms.now) }
    {
        let mut text = Text {
            section: Section {
                bytes: Vec::new(alloc),
                refs: Vec::new(alloc),
            },
            marks: Vec::new(alloc),
        };
        let mut left = self.labels.items;
        let mut rest = self.forms;
        while let [item, others @ ..] = left {
            let [form, more @ ..] = rest else {
                return Ok(text);
            };
            let to = self.target_place(target_of(item));
            text.item(alloc, *form, to, item)?;
            left = others;
            rest = more;
        }
        Ok(text)
    }
}
