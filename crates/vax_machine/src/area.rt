// The data area: where its items lie, and its bytes.
ghost use Rattle.std.specs.Prelude.{◌≡◌, ◌+◌, ◌-◌, ◌≤◌, ◌<◌, ◌++◌, true, length, vec_len, IfOk, IfSome, IfNone, OnOk, IsNone};
ghost use Rattle.std.specs.List.{list_all};
ghost use Rattle.gg_base.specs.declared.limits.TheConstants.{AREA_LIMIT};
ghost use Rattle.vax_core.specs.Valid.{is_area_item};
ghost use Rattle.vax_machine.specs.Area.{zeros, padding, size_at, area_size, label_address, resolved, resolved_of, item_bytes, area_bytes};
ghost use Rattle.vax_machine.specs.LaidOut.{IsLaidOut};

use crate::label::Names;
use gg_base::limits::{AREA_LIMIT, AREA_START};
use gg_base::{Name, w32};
use std::alloc::{AllocError, Global};
use vax_core::{Addr, AreaItem};

/// Where the items of a data area lie.
#[derive(Drop)]
pub struct Layout {
    /// Each item's address.
    pub addresses: Vec<u32>,
    /// The address behind all items.
    pub end: u32,
}

/// The names of a text whose data area is laid out.
#[derive(Clone, Copy)]
pub struct Laid<'b, 'a> {
    pub names: &'b Names<'a>,
    pub layout: &'b Layout,
    ghost laid: { IsLaidOut names.now.layout.now layout.now },
}

/// So many bytes 0.
#[tactic(auto, unfolding(crate::specs::Area::zeros))]
pub(crate) fn zeros(alloc: Global, n: usize) -> Result<Vec<u8>, AllocError>
    ensures items { IfOk result (λ v. v.items ≡ zeros n) }
    ensures len { IfOk result (λ v. vec_len v ≡ n) }
{
    vec![in alloc; 0u8; n]
}

// How many bytes lie between an address and the next multiple of 2 to this power.
fn padding(k: u8, at: u32) -> u32
    requires { k ≤ 2 }
    ensures { result ≡ padding k at }
{
    let unit = match k {
        0 => 1,
        1 => 2,
        _ => 4,
    };
    (unit - at % unit) % unit
}

// How many bytes an item takes at an address.
fn size_at(item: &AreaItem, at: u32) -> u32
    requires { is_area_item item.now ≡ true }
    ensures size { result ≡ size_at item.now at }
    ensures bound { result ≤ AREA_LIMIT }
{
    match item {
        AreaItem::Label(_) | AreaItem::Globl(_) => 0,
        AreaItem::Align(k) => padding(*k, at),
        AreaItem::Byte(_) => 1,
        AreaItem::Word(_) => 2,
        AreaItem::Long(_) => 4,
        AreaItem::Space(n) => *n,
    }
}

/// Lays out a data area; None where it is too large.
pub(crate) fn lay_out(alloc: Global, items: &[AreaItem]) -> Result<Option<Layout>, AllocError>
    requires { list_all is_area_item items.now ≡ true }
    ensures laid { IfOk result (λ o. IfSome o (IsLaidOut items.now)) }
    ensures large { IfOk result (λ o. IsNone o → AREA_LIMIT < area_size items.now) }
{
    let mut addresses = Vec::new(alloc);
    let mut at = AREA_START;
    for item in items {
        addresses.push(at)?;
        at += size_at(item, at);
        if at > AREA_START + AREA_LIMIT {
            return Ok(None);
        }
    }
    Ok(Some(Layout { addresses, end: at }))
}

impl<'b, 'a> Laid<'b, 'a> {
    fn label_address(&self, name: &Name) -> u32
        ensures { result ≡ label_address self.now.names.now.layout.now name.now }
    {
        match self.names.area.get(name.as_slice()) {
            Some(place) => self.layout.addresses[place],
            None => self.layout.end,
        }
    }

    /// The number that an address in an operand stands for.
    pub(crate) fn resolve(&self, a: &Addr) -> u32
        ensures { result ≡ resolved self.now.names.now.layout.now a.now }
    {
        match &a.name {
            None => a.offset,
            Some(name) => w32::add(self.label_address(name), a.offset),
        }
    }

    // Appends the bytes of an item at an address.
    fn put_item(&self, bytes: &mut Vec<u8>, item: &AreaItem, at: u32) -> Result<(), AllocError>
        requires { is_area_item item.now ≡ true }
        ensures { OnOk result (bytes.new.items ≡ bytes.old.items ++ item_bytes self.now.names.now.layout.now item.now at) }
    {
        match item {
            AreaItem::Label(_) | AreaItem::Globl(_) => {}
            AreaItem::Align(k) => put_zeros(bytes, padding(*k, at))?,
            AreaItem::Byte(n) => bytes.push(*n)?,
            AreaItem::Word(n) => bytes.extend_from_slice(&n.to_le_bytes())?,
            AreaItem::Long(a) => {
                bytes.extend_from_slice(&self.resolve(a).to_le_bytes())?;
            }
            AreaItem::Space(n) => put_zeros(bytes, *n)?,
        }
        Ok(())
    }

    /// The bytes of the data area as a run begins.
    pub(crate) fn area_bytes(&self, alloc: Global) -> Result<Vec<u8>, AllocError>
        requires { list_all is_area_item self.now.names.now.layout.now ≡ true }
        ensures bytes { IfOk result (λ v. v.items ≡ area_bytes self.now.names.now.layout.now) }
        ensures bound { IfOk result (λ v. vec_len v ≤ AREA_LIMIT) }
    {
        let mut bytes = Vec::new(alloc);
        let mut at = AREA_START;
        let items = self.names.layout;
        for item in items {
            self.put_item(&mut bytes, item, at)?;
            at += size_at(item, at);
        }
        Ok(bytes)
    }
}

fn put_zeros(bytes: &mut Vec<u8>, n: u32) -> Result<(), AllocError>
    ensures { OnOk result (bytes.new.items ≡ bytes.old.items ++ zeros n) }
{
    bytes.extend_from_slice(&zeros(*bytes.allocator(), n as usize)?)
}
