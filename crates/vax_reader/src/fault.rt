// Why no code was read.
ghost use Rattle.std.specs.Prelude.{◌≡◌};
ghost use Rattle.vax_reader.specs.WrongLine.{kind_name};

use std::alloc::{AllocError, AllocFailed};

/// What is wrong with a line.
#[derive(Clone, Copy, Debug, PartialEq, Eq)]
pub enum AsmKind {
    /// It is no label line, and begins with no directive or mnemonic that may stand there.
    Word,
    /// What stands behind its directive or mnemonic, or where a label line stands.
    Operands,
    /// It has no line feed, or the text ends before its `.text` line.
    Cut,
}

impl AsmKind {
    /// Its name in a report.
    pub fn name(self) -> &'static str
        ensures { result.now ≡ kind_name self }
    {
        match self {
            AsmKind::Word => "Word",
            AsmKind::Operands => "Operands",
            AsmKind::Cut => "Cut",
        }
    }
}

/// Why a text is no code's.
#[derive(Clone, Copy, Debug, PartialEq, Eq)]
pub enum AsmFault {
    NoMemory,
    /// The first line that is not of the grammar, counted from 1.
    Line { line: u64, kind: AsmKind },
}

impl From<AllocError> for AsmFault {
    ghost use Rattle.std.specs.Prelude.{◌≡◌};
    ghost use Rattle.vax_reader.specs.declared.fault.AsmFault.TheVariants.{NoMemory};

    ghost from_gives = { λ _ e. e ≡ NoMemory };

    fn from(_: AllocError) -> Self {
        AsmFault::NoMemory
    }
}

impl<T: Drop> From<AllocFailed<T>> for AsmFault {
    ghost use Rattle.std.specs.Prelude.{◌≡◌};
    ghost use Rattle.vax_reader.specs.declared.fault.AsmFault.TheVariants.{NoMemory};

    ghost from_gives = { λ _ e. e ≡ NoMemory };

    fn from(_: AllocFailed<T>) -> Self {
        AsmFault::NoMemory
    }
}
