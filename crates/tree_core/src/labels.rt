// Whether labels stand once, and branches and jumps stay in their function.

ghost use Rattle.std.specs.Prelude.{◌≡◌, ◌↔◌, ◌<◌, ◌^◌, [], ◌∷◌, IsTrue, IfSome, false, None, is_some};
ghost use Rattle.std.specs.List.{All};
ghost use Rattle.tree_core.specs.declared.items.Mention.TheVariants as mention;
ghost use Rattle.tree_core.specs.Items.{labels, all_labels};
ghost use Rattle.tree_core.specs.Labels.{LabelsOnce, TargetsStand, TargetsStandIn};
ghost use Rattle.tree_core.specs.Window.{has, added_all, met_once, MetOnce, all_met, least};

use crate::items::Mention;
use crate::program::{TreeFn, TreeItem};
use crate::window::{WINDOW, Window, better};

/// Whether each label stands once in the whole program.
pub(crate) fn labels_stand_once(functions: &[TreeFn]) -> bool
    ensures { IsTrue result ↔ LabelsOnce functions.now }
{
    let mut from = 0;
    while let Some(base) = least_of_all(functions, from) {
        if !met_once(functions, base) {
            return false;
        }
        from = base + WINDOW;
    }
    true
}

/// Whether the label of each branch and jump stands in the same function.
pub(crate) fn targets_stand(functions: &[TreeFn]) -> bool
    ensures { IsTrue result ↔ All TargetsStand functions.now }
{
    functions.iter().all(
        |function|
            ensures { IsTrue result ↔ TargetsStand function.now }
        { targets_stand_in(function.items.as_slice()) },
    )
}

// The least label from a number on.
fn least_of_all(functions: &[TreeFn], from: u64) -> Option<u64>
    ensures least { result ≡ least from None (all_labels functions.now) }
    ensures small { IfSome result (λ n. n < 2 ^ 33) }
{
    let mut best = None;
    for function in functions {
        best = least_of(function.items.as_slice(), Mention::Stands, from, best);
    }
    best
}

// The least of the best so far and the labels of the items from a number on.
fn least_of(items: &[TreeItem], mention: Mention, from: u64, best: Option<u64>) -> Option<u64>
    requires { IfSome best (λ n. n < 2 ^ 33) }
    ensures least { result ≡ least from best (labels mention items.now) }
    ensures small { IfSome result (λ n. n < 2 ^ 33) }
{
    let mut least = best;
    for item in items {
        if let Some(label) = item.label(mention) {
            least = better(from, least, u64::from(label));
        }
    }
    least
}

// Whether each label of the window that begins there stands once.
fn met_once(functions: &[TreeFn], base: u64) -> bool
    ensures { result ≡ is_some (met_once base (λ m. false) (all_labels functions.now)) }
{
    let mut window = Window::at(base);
    for function in functions {
        if !meet_once(&mut window, function.items.as_slice()) {
            return false;
        }
    }
    true
}

// Meets the labels that stand in the items, as long as none was met before.
fn meet_once(window: &mut Window, items: &[TreeItem]) -> bool
    ensures base { window.new.base ≡ window.old.base }
    ensures met { MetOnce result (has window.new) (met_once window.old.base (has window.old) (labels mention.Stands items.now)) }
{
    for item in items {
        if let Some(label) = item.label(Mention::Stands) {
            let number = u64::from(label);
            if window.has(number) {
                return false;
            }
            window.meet(number);
        }
    }
    true
}

fn targets_stand_in(items: &[TreeItem]) -> bool
    ensures { IsTrue result ↔ TargetsStandIn items.now }
{
    let mut from = 0;
    while let Some(base) = least_of(items, Mention::Target, from, None) {
        let mut window = Window::at(base);
        meet_all(&mut window, items);
        if !all_met(&window, items) {
            return false;
        }
        from = base + WINDOW;
    }
    true
}

// Meets the labels that stand in the items.
fn meet_all(window: &mut Window, items: &[TreeItem])
    ensures base { window.new.base ≡ window.old.base }
    ensures met { has window.new ≡ added_all window.old.base (has window.old) (labels mention.Stands items.now) }
{
    for item in items {
        if let Some(label) = item.label(Mention::Stands) {
            window.meet(u64::from(label));
        }
    }
}

// Whether the label to which the item goes was met, if it is one of the window.
fn is_met(window: &Window, item: &TreeItem) -> bool
    ensures { result ≡ all_met window.now.base (has window.now) (labels mention.Target (item.now ∷ [])) }
{
    match item.label(Mention::Target) {
        Some(label) => {
            let number = u64::from(label);
            !window.covers(number) || window.has(number)
        }
        None => true,
    }
}

// Whether those labels of the window to which the items go were met.
fn all_met(window: &Window, items: &[TreeItem]) -> bool
    ensures { result ≡ all_met window.now.base (has window.now) (labels mention.Target items.now) }
{
    items.iter().all(|item| is_met(window, item))
}
