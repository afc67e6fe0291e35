// What is wrong with a description.
use gg_base::NoMemory;
use md_reader_pieces::PieceFault;
use std::alloc::{AllocError, AllocFailed};

/// What is wrong with a line, in the order in which a line is looked at; and what is missing at the
/// text's end.
#[derive(Clone, Copy, Debug, PartialEq, Eq)]
pub enum DescKind {
    /// An `each` line that has other words behind it than its letters, or no rule.
    BadEach,
    /// The line is none of the forms that may stand here.
    BadWord,
    /// More classes, rules, symbols, restrictions or template lines than are allowed.
    Limit,
    /// The class is declared already.
    Twice,
    /// A rule's left side is no declared class.
    UnknownClass,
    /// A symbol of a rule's right side is neither a token of a tree nor a class.
    UnknownToken,
    /// The right side is no tree in prefix order.
    NotATree,
    /// The right side or a part of it isn't of the sort that is wanted, or is a class of statements.
    WrongSort,
    /// A restriction on symbols that it can't be put on.
    BadIf,
    /// A hole that names nothing, or nothing that can be written.
    BadHole,
    /// A rule of this class can't give that.
    BadGive,
    MissingVersion,
    MissingTarget,
    MissingPool,
    /// The class `stmt` of statements isn't declared.
    MissingStmt,
    MissingSpill,
    MissingReload,
    MissingRule,
    MissingGive,
}

/// Why a description is refused. Lines are counted from 1; what is missing at the end is missing in
/// the line behind the last.
#[derive(Clone, Copy, Debug, PartialEq, Eq)]
pub enum DescFault {
    NoMemory,
    Line { line: u32, kind: DescKind },
}

/// Why a line is not taken.
#[derive(Clone, Copy, Debug, PartialEq, Eq)]
pub enum LineFault {
    NoMemory,
    Wrong(DescKind),
}

impl From<NoMemory> for LineFault {
    ghost use Rattle.std.specs.Prelude.{◌≡◌};
    ghost use Rattle.md_reader.specs.declared.faults.LineFault.TheVariants as wrong_line;

    ghost from_gives = { λ _ e. e ≡ wrong_line.NoMemory };

    fn from(_: NoMemory) -> Self {
        LineFault::NoMemory
    }
}

impl From<AllocError> for LineFault {
    ghost use Rattle.std.specs.Prelude.{◌≡◌};
    ghost use Rattle.md_reader.specs.declared.faults.LineFault.TheVariants as wrong_line;

    ghost from_gives = { λ _ e. e ≡ wrong_line.NoMemory };

    fn from(_: AllocError) -> Self {
        LineFault::NoMemory
    }
}

impl<T: Drop> From<AllocFailed<T>> for LineFault {
    ghost use Rattle.std.specs.Prelude.{◌≡◌};
    ghost use Rattle.md_reader.specs.declared.faults.LineFault.TheVariants as wrong_line;

    ghost from_gives = { λ _ e. e ≡ wrong_line.NoMemory };

    fn from(_: AllocFailed<T>) -> Self {
        LineFault::NoMemory
    }
}

impl From<PieceFault> for LineFault {
    ghost use Rattle.std.specs.Prelude.{◌≡◌};
    ghost use Rattle.md_reader.specs.View.{line_fault};

    ghost from_gives = { λ p e. e ≡ line_fault p };

    fn from(fault: PieceFault) -> Self {
        match fault {
            PieceFault::NoMemory => LineFault::NoMemory,
            PieceFault::BadHole => LineFault::Wrong(DescKind::BadHole),
        }
    }
}
