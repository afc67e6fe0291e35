// How statements are left, and what a step shows.

ghost use Rattle.std.specs.Prelude.{◌≡◌};
ghost use Rattle.c_meaning.specs.Calls.{answer};

use gg_base::Finish;

/// How a statement is left.
#[derive(Clone, Copy, Debug, PartialEq, Eq)]
pub enum Flow {
    /// At its end.
    Onward,
    /// By `break`.
    Broke,
    /// By `continue`.
    Continued,
    /// By `return`, with a value, which is 0 where there was none.
    Returned(u32),
}

impl Flow {
    /// The value of a call whose body is left so: 0, unless a `return` gave it one.
    pub(crate) fn answer(self) -> u32
        ensures { result ≡ answer self }
    {
        match self {
            Flow::Onward => 0,
            Flow::Broke => 0,
            Flow::Continued => 0,
            Flow::Returned(value) => value,
        }
    }
}

/// What a step did: nothing that shows, a byte written, a turn or a call counted, or the end.
#[derive(Clone, Copy)]
pub(crate) enum Event {
    Quiet,
    Wrote(u8),
    Counted,
    Stopped(Finish),
}
