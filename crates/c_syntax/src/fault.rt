// Why a source has no phrases.

/// Why the tokens are no unit. Offsets are those of a token's first byte.
#[derive(Clone, Copy, Debug, PartialEq, Eq)]
pub enum SyntaxFault {
    /// Memory ran out.
    NoMemory,
    /// The first token such that no unit begins with the tokens up to it.
    NotHere(u32),
    /// The first token that opens the 201st level.
    TooDeep(u32),
}
