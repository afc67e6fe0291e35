// Whether numbers differ. They are looked at window by window, so that no memory is taken.

ghost use Rattle.std.specs.Prelude.{◌≡◌, ◌↔◌, ◌<◌, ◌^◌, IsTrue, IfSome, false, None, is_some};
ghost use Rattle.tree_core.specs.Locals.{NumbersDiffer};
ghost use Rattle.tree_core.specs.Window.{met_once, least};

use crate::window::{WINDOW, Window, better};

/// Whether no number stands twice.
pub(crate) fn numbers_differ(numbers: &[u32]) -> bool
    ensures { IsTrue result ↔ NumbersDiffer numbers.now }
{
    let mut from = 0;
    while let Some(base) = least_number(numbers, from) {
        if !met_once(numbers, base) {
            return false;
        }
        from = base + WINDOW;
    }
    true
}

// The least of the numbers from one on.
fn least_number(numbers: &[u32], from: u64) -> Option<u64>
    ensures least { result ≡ least from None numbers.now }
    ensures small { IfSome result (λ n. n < 2 ^ 33) }
{
    let mut best = None;
    for number in numbers {
        best = better(from, best, u64::from(*number));
    }
    best
}

// Whether each number of the window that begins there stands once.
fn met_once(numbers: &[u32], base: u64) -> bool
    ensures { result ≡ is_some (met_once base (λ m. false) numbers.now) }
{
    let mut window = Window::at(base);
    for number in numbers {
        let number = u64::from(*number);
        if window.has(number) {
            return false;
        }
        window.meet(number);
    }
    true
}
