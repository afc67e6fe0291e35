// How runs end and what they answer, for source, trees and code alike.

ghost use Rattle.std.specs.Prelude.{◌≡◌};
ghost use Rattle.gg_base.specs.Turns.{turn_of};

/// In which way a run of VAX code breaks.
#[derive(Clone, Copy, Debug, PartialEq, Eq)]
pub enum Break {
    /// A byte outside memory was touched.
    Access,
    /// Control words of a live frame were touched, or a return found another frame.
    Frame,
    /// No instruction stood where one was due, or a call had the wrong form.
    BadCode,
    /// The stack pointer was set under the stack's bottom, or too many frames would be live.
    StackFull,
}

/// How a run ends.
#[derive(Clone, Copy, Debug, PartialEq, Eq)]
pub enum End {
    /// It came to its end, with this value (32 bits).
    Ended(u32),
    /// It divided by zero.
    Trapped,
    /// It touched memory outside the data area: source and trees alone.
    Wild,
    /// It nested over `ACTIVE_CALL_LIMIT` active calls: source and trees alone.
    Deep,
    /// It used up the number of counted moments that it was given, and would go on.
    Spent,
    /// It broke: code alone.
    Broken(Break),
}

/// What one step of a run of a source or of trees answers.
#[derive(Clone, Copy, Debug, PartialEq, Eq)]
pub enum SourceTurn {
    /// Something was counted, and the run goes on.
    Going,
    /// This byte was written, and the run goes on.
    Wrote(u8),
    Ended(u32),
    Trapped,
    Wild,
    Deep,
    Spent,
}

/// How a run of a source or of trees comes to its end, unless its number is used up.
#[derive(Clone, Copy, Debug, PartialEq, Eq)]
pub enum Finish {
    /// With this value (32 bits).
    Ended(u32),
    Trapped,
    Wild,
    Deep,
}

impl Finish {
    /// The answer at this end.
    pub fn turn(self) -> SourceTurn
        ensures { result ≡ turn_of self }
    {
        match self {
            Finish::Ended(value) => SourceTurn::Ended(value),
            Finish::Trapped => SourceTurn::Trapped,
            Finish::Wild => SourceTurn::Wild,
            Finish::Deep => SourceTurn::Deep,
        }
    }
}
