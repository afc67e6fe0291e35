// Entries of a parse stack.
ghost use Rattle.std.specs.Prelude.{◌≡◌, ◌∷◌, ◌++◌, [], ◌<◌, ◌≤◌, true, length, take, drop, OnOk, IfOk, IfSome, slice_get, slice_set};
ghost use Rattle.std.specs.Option.{option_flatten};
ghost use Rattle.gg_base.specs.declared.limits.TheConstants.{NEED_LIMIT};
ghost use Rattle.sel_parse_desk.specs.Entries.{attrs, kind_in, slot_of, slot_in};
ghost use Rattle.sel_parse_desk.specs.Joined.{attr_in, is_low, are_low};

use gg_base::NoMemory;
use md_reader::Kind;
use sel_target::Attr;
use std::alloc::Global;
use std::marker::Model;

/// Attributes of symbols, each with the kind of its symbol's class. A token has no class. Frame words that stand for registers are
/// below `NEED_LIMIT`.
#[derive(Drop)]
pub struct Entries<O> {
    kinds: Vec<Option<Kind>>,
    attrs: Vec<Attr<O>>,
}

impl<O> Model for Entries<O> {
    ghost use Rattle.std.specs.Prelude.{◌≡◌, List, length, true};
    ghost use Rattle.sel_parse_desk.specs.Entries.{Entry};
    ghost use Rattle.sel_parse_desk.specs.Joined.{joined, are_low};

    ghost Value = { List (Entry O) };

    ghost view = { λ e. joined e.kinds.items e.attrs.items };

    ghost invariant = { λ e. (length e.kinds.items ≡ length e.attrs.items) × (are_low e.attrs.items ≡ true) };
}

// The frame word in which a register's symbol stands.
fn slot_of<O>(attr: &Attr<O>) -> Option<u32>
    requires { is_low attr.now ≡ true }
    ensures slot { result ≡ slot_of attr.now }
    ensures low { IfSome result (λ w. w < NEED_LIMIT) }
{
    match attr {
        Attr::InSlot(word) => Some(*word),
        _ => None,
    }
}

fn kind_at(kinds: &[Option<Kind>], at: usize) -> Option<Kind>
    ensures { result ≡ option_flatten (slice_get kinds.now at) }
{
    kinds.get(at).copied().flatten()
}

impl<O: Drop> Entries<O> {
    /// No entries.
    pub fn new(alloc: Global) -> Self
        ensures { result ≡ [] }
    {
        Entries {
            kinds: Vec::new(alloc),
            attrs: Vec::new(alloc),
        }
    }

    pub fn len(&self) -> usize
        ensures { result ≡ length self.now }
    {
        self.kinds.len()
    }

    /// The kind of the class of the symbol at a place.
    pub fn kind(&self, at: usize) -> Option<Kind>
        ensures { result ≡ kind_in (slice_get self.now at) }
    {
        kind_at(&self.kinds, at)
    }

    /// The attributes, in order.
    pub fn attrs(&self) -> &[Attr<O>]
        ensures attrs { result.now ≡ attrs self.now }
        ensures low { are_low result.now ≡ true }
    {
        &self.attrs
    }

    /// The attribute at a place.
    pub fn attr(&self, at: usize) -> &Attr<O>
        requires { at < length self.now }
        ensures attr { result.now ≡ attr_in (slice_get self.now at) }
        ensures low { is_low result.now ≡ true }
    {
        &self.attrs()[at]
    }

    /// The attribute at a place, as the only hole of a line.
    pub fn alone(&self, at: usize) -> &[Attr<O>]
        requires { at < length self.now }
        ensures { result.now ≡ attr_in (slice_get self.now at) ∷ [] }
    {
        &self.attrs()[at..at + 1]
    }

    /// One more entry.
    pub fn push(&mut self, kind: Option<Kind>, attr: Attr<O>) -> Result<(), NoMemory>
        requires { is_low attr ≡ true }
        ensures { OnOk result (self.new ≡ self.old ++ record { kind = kind; attr = attr } ∷ []) }
    {
        self.kinds.push(kind)?;
        match self.attrs.push(attr) {
            Ok(()) => Ok(()),
            Err(_) => {
                self.kinds.pop();
                Err(NoMemory)
            }
        }
    }

    /// The frame word at a place, if a register's symbol stands in one there.
    pub fn slot(&self, at: usize) -> Option<u32>
        ensures slot { result ≡ slot_in (slice_get self.now at) }
        ensures low { IfSome result (λ w. w < NEED_LIMIT) }
    {
        if self.len() <= at {
            return None;
        }
        slot_of(self.attr(at))
    }

    /// Another attribute at a place.
    pub fn put(&mut self, at: usize, attr: Attr<O>)
        requires within { at < length self.old }
        requires low { is_low attr ≡ true }
        ensures { self.new ≡ slice_set self.old at (record { kind = kind_in (slice_get self.old at); attr = attr }) }
    {
        self.attrs[at] = attr;
    }

    /// The entries from a place on are taken off.
    pub fn split_off(&mut self, at: usize) -> Result<Self, NoMemory>
        requires { at ≤ length self.old }
        ensures before { OnOk result (self.new ≡ take at self.old) }
        ensures behind { IfOk result (λ e. e ≡ drop at self.old) }
    {
        let kinds = self.kinds.split_off(at)?;
        match self.attrs.split_off(at) {
            Ok(attrs) => Ok(Entries { kinds, attrs }),
            Err(_) => {
                self.attrs.truncate(at);
                Err(NoMemory)
            }
        }
    }
}
