// Tokens, where they stand, and why a text has none.
ghost use Rattle.std.specs.Prelude.{◌≡◌};

use crate::{Key, Mark};
use gg_base::{Bytes, Name};
use std::alloc::{AllocError, AllocFailed};

/// A token. A character constant is a `Number`: its byte with the sign copied, as 32 bits.
/// `End` stands once, behind the last byte.
#[derive(Drop)]
pub enum Token {
    Name(Name),
    Number(u32),
    Str(Bytes),
    Key(Key),
    Mark(Mark),
    End,
}

/// A token with the offsets of its first byte and of the byte behind it.
#[derive(Drop)]
pub struct Spanned {
    pub kind: Token,
    pub start: u32,
    pub end: u32,
}

/// What is wrong with the text at a place.
#[derive(Clone, Copy, Debug, PartialEq, Eq)]
pub enum TokenKind {
    /// No token begins with the byte.
    BadByte,
    /// The word that begins here is no number, or a number that is too large.
    BadNumber,
    /// The name that begins here has more than 63 bytes.
    LongName,
    /// The backslash begins no escape.
    BadEscape,
    /// The character constant that begins here has no element or more than one.
    BadChar,
    /// The comment, string or character constant that begins here isn't closed.
    Unclosed,
}

/// Why a text has no tokens.
#[derive(Clone, Copy, Debug, PartialEq, Eq)]
pub enum TokenFault {
    /// Memory ran out.
    NoMemory,
    /// The first fault from the left, and the offset of its place.
    At { place: u32, kind: TokenKind },
}

impl From<AllocError> for TokenFault {
    ghost use Rattle.std.specs.Prelude.{◌≡◌};
    ghost use Rattle.c_tokens.specs.declared.token.TokenFault.TheVariants.{NoMemory};

    ghost from_gives = { λ _ e. e ≡ NoMemory };

    fn from(_: AllocError) -> Self {
        TokenFault::NoMemory
    }
}

impl<T: Drop> From<AllocFailed<T>> for TokenFault {
    ghost use Rattle.std.specs.Prelude.{◌≡◌};
    ghost use Rattle.c_tokens.specs.declared.token.TokenFault.TheVariants.{NoMemory};

    ghost from_gives = { λ _ e. e ≡ NoMemory };

    fn from(_: AllocFailed<T>) -> Self {
        TokenFault::NoMemory
    }
}
