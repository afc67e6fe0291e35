// A text section while it is written.
use vax_image_format::Ref;

/// The bytes of a text section so far, and the refs to their fields.
#[derive(Drop)]
pub struct Section {
    pub bytes: Vec<u8>,
    pub refs: Vec<Ref>,
}
