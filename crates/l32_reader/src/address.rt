// Addresses at the front of some bytes.
ghost use Rattle.std.specs.Prelude.{◌≡◌, IfOk};
ghost use Rattle.std.specs.Option.{option_map};
ghost use Rattle.vax_reader.specs.Operands.{addr_front};
ghost use Rattle.l32_reader.specs.Operands.{addr_of};

use crate::fronts::{name, offset, signed};
use gg_base::Name;
use std::alloc::{AllocError, Global};
use vax_core::Addr;

/// An address as it stands in the text: a number, or a label with its offset.
#[derive(Clone, Copy)]
pub enum Spelled<'a> {
    Number(u32),
    Label(&'a [u8], u32),
}

/// The address at the front.
#[tactic(auto, unfolding(vax_reader::specs::Operands::addr_front))]
pub fn addr(bytes: &[u8]) -> Option<(Spelled<'_>, &[u8])>
    ensures { addr_front bytes.now ≡ option_map (λ x. (addr_of x.0, x.1.now)) result }
{
    if let Some((n, rest)) = signed(bytes) {
        return Some((Spelled::Number(n), rest));
    }
    let (label, rest) = name(bytes)?;
    let (n, rest) = offset(rest)?;
    Some((Spelled::Label(label, n), rest))
}

/// The address with a copy of its label.
pub fn owned(alloc: Global, a: Spelled<'_>) -> Result<Addr, AllocError>
    ensures { IfOk result (λ o. o ≡ addr_of a.entry) }
{
    match a {
        Spelled::Number(n) => Ok(Addr {
            name: None,
            offset: n,
        }),
        Spelled::Label(name, n) => Ok(Addr {
            name: Some(Name::copy_of(alloc, name)?),
            offset: n,
        }),
    }
}
