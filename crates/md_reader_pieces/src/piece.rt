// Lines and their pieces.

use gg_base::{Bytes, ListOf, NoMemory};
use std::alloc::{AllocError, AllocFailed};

/// A piece of a line: bytes that stand as they are, or a hole.
#[derive(Drop)]
pub enum Piece {
    Bytes(Bytes),
    /// `%i`: the symbol with this number, counted from 1; 0 is the result or the scratch register.
    /// Numbers from 255 on are all 255, which is no symbol's.
    Hole(u8),
    /// `%L`: the label of a branch or a jump.
    Label,
    /// `%F`: the function that is called.
    Callee,
    /// `%N`: the number of its arguments.
    Count,
}

/// The pieces of a line, from left to right.
pub type Pieces = ListOf<Piece>;

/// A line of a template with its number in the description: a mnemonic and its operands, parted by
/// one space, or what a rule gives, which is an operand alone.
#[derive(Drop)]
pub struct Line {
    pub line: u32,
    pub pieces: Pieces,
}

/// Why a text has no pieces.
#[derive(Clone, Copy, Debug, PartialEq, Eq)]
pub enum PieceFault {
    NoMemory,
    /// What stands behind a `%` is the name of no hole.
    BadHole,
}

impl From<NoMemory> for PieceFault {
    ghost use Rattle.std.specs.Prelude.{◌≡◌};
    ghost use Rattle.md_reader_pieces.specs.declared.piece.PieceFault.TheVariants as piece_fault;

    ghost from_gives = { λ _ e. e ≡ piece_fault.NoMemory };

    fn from(_: NoMemory) -> Self {
        PieceFault::NoMemory
    }
}

impl From<AllocError> for PieceFault {
    ghost use Rattle.std.specs.Prelude.{◌≡◌};
    ghost use Rattle.md_reader_pieces.specs.declared.piece.PieceFault.TheVariants as piece_fault;

    ghost from_gives = { λ _ e. e ≡ piece_fault.NoMemory };

    fn from(_: AllocError) -> Self {
        PieceFault::NoMemory
    }
}

impl<T: Drop> From<AllocFailed<T>> for PieceFault {
    ghost use Rattle.std.specs.Prelude.{◌≡◌};
    ghost use Rattle.md_reader_pieces.specs.declared.piece.PieceFault.TheVariants as piece_fault;

    ghost from_gives = { λ _ e. e ≡ piece_fault.NoMemory };

    fn from(_: AllocFailed<T>) -> Self {
        PieceFault::NoMemory
    }
}
