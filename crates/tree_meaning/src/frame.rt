// A call that is active.

ghost use Rattle.std.specs.Prelude.{◌≡◌, ◌∷◌, ◌-◌, IfOk, OnOk, take, drop, reverse, slice_set};
ghost use Rattle.std.specs.Option.{option_map};
ghost use Rattle.tree_meaning.specs.State.{begun, with_local, is_label, behind, ahead};
ghost use Rattle.tree_meaning.specs.View.{activation, written};

use std::alloc::{AllocError, Global};
use tree_core::{Leaf, TreeFn, TreeItem};

/// A call that is active: its function's items, those still to come, the locals up to the last that
/// it has written, its arguments from argument 1 on, what it has pushed, and its last call's result.
#[derive(Drop)]
pub(crate) struct Frame<'a> {
    pub(crate) code: &'a [TreeItem],
    pub(crate) rest: &'a [TreeItem],
    pub(crate) locals: Vec<Option<u32>>,
    pub(crate) arguments: Vec<u32>,
    pub(crate) pushed: Vec<u32>,
    pub(crate) result: u32,
}

impl<'a> Frame<'a> {
    /// A call of the function that begins.
    pub(crate) fn begin(alloc: Global, function: &'a TreeFn, arguments: Vec<u32>) -> Frame<'a>
        ensures { activation result ≡ begun function.now arguments.items }
    {
        Frame {
            code: function.items.as_slice(),
            rest: function.items.as_slice(),
            locals: Vec::new(alloc),
            arguments,
            pushed: Vec::new(alloc),
            result: 0,
        }
    }

    /// Writes a local.
    pub(crate) fn set_local(&mut self, number: u32, value: u32) -> Result<(), AllocError>
        ensures { OnOk result (activation self.new ≡ record (activation self.old)
            { locals = with_local (activation self.old).locals number value }) }
    {
        set_local(&mut self.locals, number, value)
    }

    /// Writes an argument, if there is such a one.
    pub(crate) fn set_argument(&mut self, number: u32, value: u32)
        ensures { activation self.new ≡ record (activation self.old) {
          arguments =
              slice_set (activation self.old).arguments (number - 1) value;
        } }
    {
        let at = number.saturating_sub(1) as usize;
        if at < self.arguments.len() {
            self.arguments[at] = value;
        }
    }

    /// Pushes an argument.
    pub(crate) fn push(&mut self, value: u32) -> Result<(), AllocError>
        ensures { OnOk result (activation self.new ≡ record (activation self.old) { pushed = value ∷ (activation self.old).pushed }) }
    {
        self.pushed.push(value)?;
        Ok(())
    }

    /// Takes so many of the arguments that were pushed, the last one first.
    pub(crate) fn take_pushed(&mut self, count: u32) -> Result<Vec<u32>, AllocError>
        ensures taken { IfOk result (λ args. args.items ≡ take count (activation self.old).pushed) }
        ensures left { OnOk result (activation self.new ≡ record (activation self.old)
            { pushed = drop count (activation self.old).pushed }) }
    {
        take_last(&mut self.pushed, count)
    }

    /// Goes on behind a label, at its first place in the code.
    pub(crate) fn jump(&mut self, label: u32)
        ensures { activation self.new ≡ record (activation self.old) { items = behind (activation self.old).code label } }
    {
        self.rest = behind(self.code, label);
    }
}

// Writes a local, with room for those before it.
fn set_local(locals: &mut Vec<Option<u32>>, number: u32, value: u32) -> Result<(), AllocError>
    ensures { OnOk result (written locals.new.items ≡ with_local (written locals.old.items) number value) }
{
    let at = number as usize;
    if locals.len() <= at {
        locals.resize(at + 1, None)?;
    }
    locals[at] = Some(value);
    Ok(())
}

// Takes so many off the end, the last one first.
fn take_last(pushed: &mut Vec<u32>, count: u32) -> Result<Vec<u32>, AllocError>
    ensures taken { IfOk result (λ args. args.items ≡ take count (reverse pushed.old.items)) }
    ensures left { OnOk result (reverse pushed.new.items ≡ drop count (reverse pushed.old.items)) }
{
    let left = pushed.len().saturating_sub(count as usize);
    let mut arguments = pushed.split_off(left)?;
    arguments.reverse();
    Ok(arguments)
}

/// The leaves of the root that comes first among the items, and the items behind it.
pub(crate) fn next_root(items: &[TreeItem]) -> Option<(&[Leaf], &[TreeItem])>
    ensures { option_map (λ r. (r.0.now, r.1.now)) result ≡ ahead items.now }
{
    let mut rest = items;
    while let Some((item, others)) = rest.split_first() {
        if let TreeItem::Root(leaves) = item {
            return Some((leaves.as_slice(), others));
        }
        rest = others;
    }
    None
}

// Whether an item is this label.
fn is_label(item: &TreeItem, label: u32) -> bool
    ensures { result ≡ is_label label item.now }
{
    match item {
        TreeItem::Label(number) => *number == label,
        TreeItem::Root(_) => false,
    }
}

// The items behind a label's first place.
fn behind(code: &[TreeItem], label: u32) -> &[TreeItem]
    ensures { result.now ≡ behind code.now label }
{
    match code.iter().position(|item| is_label(item, label)) {
        Some(at) => &code[at + 1..],
        None => &[],
    }
}
