// What a step answers, and how a run is over.
ghost use Rattle.std.specs.Prelude.{◌≡◌};
ghost use Rattle.l32_machine.specs.Step.{turn_of};
ghost use Rattle.l32_machine.specs.Running.{break_of};

use gg_base::Break;

/// In which way a run breaks.
#[derive(Clone, Copy, Debug, PartialEq, Eq)]
pub enum Break32 {
    /// A byte outside memory was touched.
    Access,
    /// The next item was the end of the code, or a service got another number of arguments than it takes.
    BadCode,
    /// The stack pointer was set under the stack's bottom, or too many frames would be live.
    StackFull,
}

impl Break32 {
    /// The break as the end of a run, for which all machines have one type.
    pub fn kind(self) -> Break
        ensures { result ≡ break_of self }
    {
        match self {
            Break32::Access => Break::Access,
            Break32::BadCode => Break::BadCode,
            Break32::StackFull => Break::StackFull,
        }
    }
}

/// What a step did.
#[derive(Clone, Copy, Debug, PartialEq, Eq)]
pub enum Turn32 {
    /// One instruction is done, and the run goes on.
    Going,
    /// One instruction is done, which wrote this byte, and the run goes on.
    Wrote(u8),
    /// The `ret` of `_main` was done; a0 held this.
    Ended(u32),
    /// A divisor was zero.
    Trapped,
    /// The run broke in this way.
    Broken(Break32),
}

/// How a run is over.
#[derive(Clone, Copy)]
pub enum Stop32 {
    Ended(u32),
    Trapped,
    Broken(Break32),
}

pub(crate) const ACCESS: Stop32 = Stop32::Broken(Break32::Access);

pub(crate) const BAD_CODE: Stop32 = Stop32::Broken(Break32::BadCode);

pub(crate) const STACK_FULL: Stop32 = Stop32::Broken(Break32::StackFull);

impl Stop32 {
    /// What a step answers from then on.
    pub fn turn(self) -> Turn32
        ensures { result ≡ turn_of self }
    {
        match self {
            Stop32::Ended(value) => Turn32::Ended(value),
            Stop32::Trapped => Turn32::Trapped,
            Stop32::Broken(kind) => Turn32::Broken(kind),
        }
    }
}
