// Numbers that were met, window by window, so that no memory is taken: a pass over a list for each
// window of 4,096 numbers in which one of the list's stands.

ghost use Rattle.std.specs.Prelude.{◌≡◌, ◌<◌, ◌^◌, ℕ, false, IfSome};
ghost use Rattle.tree_core.specs.Window.{has, covers, added, better};

/// How many numbers a window has.
pub(crate) const WINDOW: u64 = 4096;

/// Which numbers of a window were met.
#[derive(Drop)]
pub(crate) struct Window {
    base: u64,
    met: [bool; 4096],
}

impl Window {
    /// The window that begins at a number, none of whose numbers was met.
    pub(crate) fn at(base: u64) -> Window
        ensures base { result.base ≡ base }
        ensures none { has result ≡ (λ m. false) }
    {
        Window {
            base,
            met: [false; 4096],
        }
    }

    /// Whether the number is one of the window.
    pub(crate) fn covers(&self, number: u64) -> bool
        ensures { result ≡ covers self.now.base number }
    {
        self.base <= number && number - self.base < WINDOW
    }

    /// Whether the number is one of the window, and was met.
    pub(crate) fn has(&self, number: u64) -> bool
        ensures { result ≡ has self.now number }
    {
        self.covers(number) && self.met[(number - self.base) as usize]
    }

    /// Meets the number, where it is one of the window.
    pub(crate) fn meet(&mut self, number: u64)
        ensures base { self.new.base ≡ self.old.base }
        ensures met { has self.new ≡ added self.old.base (has self.old) number }
    {
        self.note(number);
    }

    fn note(&mut self, number: u64)
        ensures base { self.new.base ≡ self.old.base }
        ensures met { (m : ℕ) → has self.new m ≡ added self.old.base (has self.old) number m }
    {
        if self.covers(number) {
            self.met[(number - self.base) as usize] = true;
        }
    }
}

/// The lesser of a number and the best so far, where the number is not below `from`.
pub(crate) fn better(from: u64, best: Option<u64>, number: u64) -> Option<u64>
    ensures better { result ≡ better from best number }
    ensures small { number < 2 ^ 33 → IfSome best (λ n. n < 2 ^ 33) → IfSome result (λ n. n < 2 ^ 33) }
{
    if number < from {
        return best;
    }
    match best {
        None => Some(number),
        Some(least) => Some(least.min(number)),
    }
}
