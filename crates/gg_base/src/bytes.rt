// Names, bytes and texts, which contracts see as lists of bytes.
ghost use Rattle.std.specs.Fmt.{decimal};
ghost use Rattle.std.specs.Prelude.{◌≡◌, ◌++◌, OnOk};
ghost use Rattle.gg_base.specs.Numbers.{signed_text};

use crate::list::ListOf;
use itoa::Buffer;
use std::alloc::AllocError;

/// A name in a source, a description or an assembly text.
pub type Name = ListOf<u8>;

/// The bytes of a file, a string or an object.
pub type Bytes = ListOf<u8>;

/// A text that was written.
pub type Text = ListOf<u8>;

/// Appends a number in decimal digits.
pub fn put_decimal(into: &mut Vec<u8>, number: u64) -> Result<(), AllocError>
    ensures { OnOk result (into.new.items ≡ into.old.items ++ decimal number) }
{
    let mut buffer = Buffer::new();
    into.extend_from_slice(buffer.format(number).as_bytes())?;
    Ok(())
}

/// Appends 32 bits as a signed number, in decimal digits behind its sign.
pub fn put_signed(into: &mut Vec<u8>, n: u32) -> Result<(), AllocError>
    ensures { OnOk result (into.new.items ≡ into.old.items ++ signed_text n) }
{
    if n < 0x8000_0000 {
        put_decimal(into, u64::from(n))
    } else {
        into.push(b'-')?;
        put_decimal(into, u64::from(n.wrapping_neg()))
    }
}
