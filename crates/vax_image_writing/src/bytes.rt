// Bytes behind others: numbers, names, and the parts of an image.
ghost use Rattle.std.specs.Prelude.{◌≡◌, ◌≤◌, ◌++◌, ◌∷◌, OnOk, length};
ghost use Rattle.vax_image_format.specs.Specifiers.{field};

use gg_base::Size;
use std::alloc::AllocError;

/// Appends the low bytes of a number in a field of a size.
pub fn put_number(bytes: &mut Vec<u8>, size: Size, n: u32) -> Result<(), AllocError>
    ensures { OnOk result (bytes.new.items ≡ bytes.old.items ++ field size n) }
{
    match size {
        Size::Byte => {
            bytes.push((n % 0x100) as u8)?;
        }
        Size::Word => {
            let low = (n % 0x1_0000) as u16;
            bytes.extend_from_slice(&low.to_le_bytes())?;
        }
        Size::Long => {
            bytes.extend_from_slice(&n.to_le_bytes())?;
        }
    }
    Ok(())
}

/// Appends a name behind its length.
pub fn put_name(bytes: &mut Vec<u8>, name: &[u8]) -> Result<(), AllocError>
    requires { length name.now ≤ 64 }
    ensures { OnOk result (bytes.new.items ≡ bytes.old.items ++ (length name.now ∷ name.now)) }
{
    bytes.push(name.len() as u8)?;
    bytes.extend_from_slice(name)?;
    Ok(())
}
