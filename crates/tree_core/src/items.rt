// What the items of a function are, where labels, pushes and calls are looked at.

ghost use Rattle.std.specs.Prelude.{◌≡◌, ◌↔◌, ◌+◌, ◌<◌, ◌^◌, IsTrue, false};
ghost use Rattle.tree_core.specs.Items.{target_of, label_in, called, role_of, role_of_token, after_item, in_order, CallsInOrder};

use crate::program::TreeItem;
use crate::token::Tok;
use crate::tree::Att;

/// Whether a label stands in an item, or is the one to which the item's branch or jump goes.
#[derive(Clone, Copy)]
pub(crate) enum Mention {
    Stands,
    Target,
}

/// What a root does to the pushed arguments.
#[derive(Clone, Copy)]
pub(crate) enum Role {
    Pushes,
    /// A call that takes so many.
    Calls(u32),
    Saves,
    Other,
}

impl TreeItem {
    // The label that stands in the item, or to which it goes.
    pub(crate) fn label(&self, mention: Mention) -> Option<u32>
        ensures { result ≡ label_in mention self.now }
    {
        match (mention, self) {
            (Mention::Stands, TreeItem::Label(label)) => Some(*label),
            (Mention::Stands, TreeItem::Root(_)) => None,
            (Mention::Target, TreeItem::Label(_)) => None,
            (Mention::Target, TreeItem::Root(leaves)) => match leaves.as_slice().first() {
                Some(leaf) => target(leaf.att),
                None => None,
            },
        }
    }

    // What the item does to the pushed arguments.
    pub(crate) fn role(&self) -> Role
        ensures { result ≡ role_of self.now }
    {
        match self {
            TreeItem::Label(_) => Role::Other,
            TreeItem::Root(leaves) => match leaves.as_slice().first() {
                Some(leaf) => role_of_token(leaf.tok, leaf.att),
                None => Role::Other,
            },
        }
    }
}

fn target(att: Att) -> Option<u32>
    ensures { result ≡ target_of att }
{
    match att {
        Att::Branch { label, .. } => Some(label),
        Att::Label(label) => Some(label),
        _ => None,
    }
}

fn role_of_token(tok: Tok, att: Att) -> Role
    ensures { result ≡ role_of_token tok att }
{
    match tok {
        Tok::Push => Role::Pushes,
        Tok::Call => match att {
            Att::Callee { count, .. } => Role::Calls(count),
            _ => Role::Other,
        },
        Tok::Save => Role::Saves,
        _ => Role::Other,
    }
}

/// Whether as many pushes as its count stand directly before each call, and no push elsewhere, and
/// each save directly behind a call.
pub(crate) fn calls_in_order(items: &[TreeItem]) -> bool
    ensures { IsTrue result ↔ CallsInOrder items.now }
{
    is_in_order(items)
}

fn is_in_order(items: &[TreeItem]) -> bool
    ensures { result ≡ in_order 0 false items.now }
{
    let mut pushed = 0;
    let mut is_behind = false;
    for item in items {
        let Some((pushes, call)) = after_item(item.role(), pushed, is_behind) else {
            return false;
        };
        pushed = pushes;
        is_behind = call;
    }
    pushed == 0
}

// How many pushes stand directly before the next item, and whether a call does.
fn after_item(role: Role, pushed: usize, is_behind: bool) -> Option<(usize, bool)>
    requires { pushed + 1 < 2 ^ 64 }
    ensures { result ≡ after_item role pushed is_behind }
{
    match role {
        Role::Pushes => Some((pushed + 1, false)),
        Role::Calls(count) if pushed == count as usize => Some((0, true)),
        Role::Saves if is_behind => Some((pushed, false)),
        Role::Other if pushed == 0 => Some((pushed, false)),
        _ => None,
    }
}
