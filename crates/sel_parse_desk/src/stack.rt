// The stack below a rule's symbols, with what its entries hold.
ghost use Rattle.std.specs.Prelude.{◌≡◌, ◌∷◌, ◌++◌, [], ◌-◌, ◌<◌, ◌≤◌, length, take, drop, true, false, OnOk, IfOk, IfSome};
ghost use Rattle.std.specs.List.{list_any, slice_get, slice_set};
ghost use Rattle.sel_target.specs.Symbols.{first_that};
ghost use Rattle.sel_parse_desk.specs.Entries.{attrs, kind_in};
ghost use Rattle.sel_parse_desk.specs.Spills.{holds_some};
ghost use Rattle.sel_parse_desk.specs.Joined.{is_low};
ghost use Rattle.sel_parse_desk.specs.Tallied.{IsTallied};

use crate::entries::Entries;
use crate::holding::holds_some;
use crate::tally::Tally;
use gg_base::NoMemory;
use md_reader::Kind;
use sel_target::{Attr, Templates};

/// The entries of a parse stack, the deepest first, with the counts of the registers and the frame words that they hold, and a place
/// before which none holds a register.
#[derive(Drop)]
pub struct Stack<O> {
    pub entries: Entries<O>,
    pub tally: Tally,
    pub settled: usize,
}

/// One more entry.
pub fn push<T: Templates>(
    target: &T,
    stack: &mut Stack<T::Operand>,
    kind: Option<Kind>,
    attr: Attr<T::Operand>,
) -> Result<(), NoMemory>
    requires low { is_low attr ≡ true }
    requires tallied { IsTallied T.meaning stack.old }
    ensures entries { OnOk result (stack.new.entries ≡ stack.old.entries ++ record { kind = kind; attr = attr } ∷ []) }
    ensures tallied { OnOk result (IsTallied T.meaning stack.new) }
{
    let at = stack.entries.len();
    stack.entries.push(kind, attr)?;
    let _long = stack.entries.len();
    let attr = &stack.entries.attrs()[at];
    stack.tally.raise(target, attr);
    Ok(())
}

/// The deepest entry that holds a register gets another attribute.
pub fn put<T: Templates>(
    target: &T,
    stack: &mut Stack<T::Operand>,
    at: usize,
    attr: Attr<T::Operand>,
)
    requires within { at < length stack.old.entries }
    requires unsettled { stack.old.settled ≤ at }
    requires low { is_low attr ≡ true }
    requires tallied { IsTallied T.meaning stack.old }
    ensures entries { stack.new.entries ≡ slice_set stack.old.entries at (record {
      kind = kind_in
          (slice_get stack.old.entries at);
      attr = attr;
    }) }
    ensures tallied { IsTallied T.meaning stack.new }
{
    let _long = stack.entries.len();
    let former = &stack.entries.attrs()[at];
    stack.tally.lower(target, former);
    stack.tally.raise(target, &attr);
    stack.entries.put(at, attr);
}

/// The top entries, so many of them, are taken off.
pub fn part<T: Templates>(
    target: &T,
    stack: &mut Stack<T::Operand>,
    count: usize,
) -> Result<Entries<T::Operand>, NoMemory>
    requires tallied { IsTallied T.meaning stack.old }
    ensures below { OnOk result (stack.new.entries ≡ take (length stack.old.entries - count) stack.old.entries) }
    ensures taken { IfOk result (λ e. e ≡ drop (length stack.old.entries - count) stack.old.entries) }
    ensures tallied { OnOk result (IsTallied T.meaning stack.new) }
{
    let long = stack.entries.len();
    let base = long.saturating_sub(count);
    let taken = stack.entries.split_off(base)?;
    stack.tally.lower_all(target, taken.attrs());
    stack.settled = stack.settled.min(base);
    Ok(taken)
}

// The first attribute that holds a register, of which those before a place hold none.
fn first_from<T: Templates>(target: &T, attrs: &[Attr<T::Operand>], from: usize) -> Option<usize>
    requires within { from ≤ length attrs.now }
    requires none_before { list_any (holds_some T.meaning) (take from attrs.now) ≡ false }
    ensures { result ≡ first_that (holds_some T.meaning) attrs.now }
{
    let behind = attrs[from..]
        .iter()
        .position(|attr| holds_some(target, attr))?;
    Some(from + behind)
}

/// The place of the deepest entry that holds a register.
pub fn deepest<T: Templates>(target: &T, stack: &mut Stack<T::Operand>) -> Option<usize>
    requires tallied { IsTallied T.meaning stack.old }
    ensures place { result ≡ first_that (holds_some T.meaning) (attrs stack.old.entries) }
    ensures unsettled { IfSome result (λ i. (i < length stack.old.entries) × (stack.new.settled ≤ i)) }
    ensures entries { stack.new.entries ≡ stack.old.entries }
    ensures tallied { IsTallied T.meaning stack.new }
{
    let found = first_from(target, stack.entries.attrs(), stack.settled);
    stack.settled = found.unwrap_or(stack.entries.len());
    found
}
