// Where the items of a code lie in its text section.
ghost use Rattle.vax_image_writing.specs.Laid.{IsLaid};

use gg_base::Size;
use vax_image_names::Labels;

/// A code's labels, the forms of its items, and the places of all items and of the section's end.
#[derive(Clone, Copy)]
pub struct Plan<'a> {
    pub labels: &'a Labels<'a>,
    pub forms: &'a [Size],
    pub places: &'a [u64],
    ghost laid: { IsLaid labels.now.items.now forms.now places.now },
}
