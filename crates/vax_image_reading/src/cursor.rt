// A place in a text section, with what is left of the section and of its refs.
ghost use Rattle.std.specs.Prelude.{◌+◌, ◌<◌, ◌^◌, length};

use vax_image_format::Ref;

/// What is left of a text section: the place, the bytes from there on, and the refs to fields that are not read yet.
#[derive(Clone, Copy)]
pub struct Cursor<'a> {
    pub place: u64,
    pub bytes: &'a [u8],
    pub refs: &'a [Ref],
    ghost small: { place + length bytes.now < 2 ^ 62 },
}
