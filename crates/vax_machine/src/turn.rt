// What a step answers, and how a run is over.
ghost use Rattle.std.specs.Prelude.{◌≡◌};
ghost use Rattle.vax_machine.specs.Step.{turn_of};

use gg_base::Break;

/// What a step did.
#[derive(Clone, Copy, Debug, PartialEq, Eq)]
pub enum Turn {
    /// One instruction is done, and the run goes on.
    Going,
    /// One instruction is done, which wrote this byte, and the run goes on.
    Wrote(u8),
    /// The `ret` of `_main` was done; r0 held this.
    Ended(u32),
    /// A divisor was zero.
    Trapped,
    /// The run broke in this way.
    Broken(Break),
}

/// How a run is over.
#[derive(Clone, Copy)]
pub enum Stop {
    Ended(u32),
    Trapped,
    Broken(Break),
}

pub(crate) const ACCESS: Stop = Stop::Broken(Break::Access);

pub(crate) const FRAME: Stop = Stop::Broken(Break::Frame);

pub(crate) const BAD_CODE: Stop = Stop::Broken(Break::BadCode);

pub(crate) const STACK_FULL: Stop = Stop::Broken(Break::StackFull);

impl Stop {
    /// What a step answers from then on.
    pub fn turn(self) -> Turn
        ensures { result ≡ turn_of self }
    {
        match self {
            Stop::Ended(value) => Turn::Ended(value),
            Stop::Trapped => Turn::Trapped,
            Stop::Broken(kind) => Turn::Broken(kind),
        }
    }
}
