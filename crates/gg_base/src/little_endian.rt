// Numbers in memory: the lowest byte first, at any address.

ghost use Rattle.std.specs.Prelude.{◌≡◌, ◌+◌, ◌≤◌, length};
ghost use Rattle.gg_base.specs.Sizes.{bytes_of};
ghost use Rattle.gg_base.specs.LittleEndian.{number_in, with_number};

use crate::size::Size;

/// The number that stands at a place of some bytes, at a size.
pub fn number_in(size: Size, bytes: &[u8], at: usize) -> u32
    requires { at + bytes_of size ≤ length bytes.now }
    ensures { result ≡ number_in size bytes.now at }
{
    match size {
        Size::Byte => u32::from(bytes[at]),
        Size::Word => u32::from(u16::from_le_bytes([bytes[at], bytes[at + 1]])),
        Size::Long => u32::from_le_bytes([bytes[at], bytes[at + 1], bytes[at + 2], bytes[at + 3]]),
    }
}

/// Puts the low part of a number at a place of some bytes, at a size.
pub fn put_number(size: Size, bytes: &mut [u8], at: usize, value: u32)
    requires { at + bytes_of size ≤ length bytes.old }
    ensures { bytes.new ≡ with_number size bytes.old at value }
{
    match size {
        Size::Byte => bytes[at] = (value % 0x100) as u8,
        Size::Word => {
            let low = (value % 0x1_0000) as u16;
            bytes[at..at + 2].copy_from_slice(&low.to_le_bytes());
        }
        Size::Long => bytes[at..at + 4].copy_from_slice(&value.to_le_bytes()),
    }
}
