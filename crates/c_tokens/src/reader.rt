// The tokens of a text, and where an offset stands.
ghost use Rattle.std.specs.Prelude.{ℕ, List, ◌≡◌, ◌≤◌, ◌++◌, length, take, IfOk, IfErr};
ghost use Rattle.gg_base.specs.declared.limits.TheConstants.{SOURCE_LIMIT};
ghost use Rattle.c_tokens.specs.Reading.{Answers, spanned, read};
ghost use Rattle.c_tokens.specs.declared.token.TokenFault.TheVariants.{NoMemory};
ghost use Rattle.c_tokens.specs.declared.token.Spanned.{Spanned};
ghost use Rattle.c_tokens.specs.declared.token.TokenKind.{TokenKind};
ghost use Rattle.c_tokens.specs.Grammar.{Tokens};
ghost use Rattle.c_tokens.specs.Wrong.{FirstFault};
ghost use Rattle.c_tokens.specs.Answer.{IsFirstFault, AreTokens, IsFault};
ghost use Rattle.c_tokens.specs.Places.{line_of, column_of};

use crate::pieces::piece_of;
use crate::token::{Spanned, Token, TokenFault};
use gg_base::Place;
use std::alloc::Global;

// Keeps the token that a piece holds.
fn keep(
    found: &mut Vec<Spanned>,
    token: Option<Token>,
    start: u32,
    end: u32,
) -> Result<(), TokenFault>
    ensures kept { IfOk result (λ _. found.new.items ≡ found.old.items ++ spanned token start end) }
    ensures memory { IfErr result (λ f. f ≡ NoMemory) }
{
    if let Some(kind) = token {
        found.push(Spanned { kind, start, end })?;
    }
    Ok(())
}

fn read(alloc: Global, bytes: &[u8]) -> Result<Vec<Spanned>, TokenFault>
    requires { length bytes.now ≤ SOURCE_LIMIT }
    ensures answers { Answers result (read bytes.now) }
{
    let mut found = Vec::new(alloc);
    let mut rest = bytes;
    let mut at: u32 = 0;
    while !rest.is_empty() {
        let piece = piece_of(alloc, rest, at)?;
        let end = at + piece.length as u32;
        keep(&mut found, piece.token, at, end)?;
        rest = &rest[piece.length..];
        at = end;
    }
    keep(&mut found, Some(Token::End), at, at)?;
    Ok(found)
}

/// The tokens of a text of at most `SOURCE_LIMIT` bytes, the last one `End`; or the first fault from the left.
/// `Tokens` is the grammar over whole texts, `FirstFault` says what is wrong and where.
#[tactic(auto, using(crate::proofs::TextLaws::text_laws))]
pub fn tokens(alloc: Global, bytes: &[u8]) -> Result<Vec<Spanned>, TokenFault>
    requires { length bytes.now ≤ SOURCE_LIMIT }
    ensures found { IfOk result (λ v. Tokens 0 bytes.now v.items) }
    ensures only { (ts : List Spanned) → Tokens 0 bytes.now ts → AreTokens result ts }
    ensures first { IfErr result (IsFirstFault bytes.now) }
    ensures refused { (place : ℕ) (kind : TokenKind) → FirstFault 0 bytes.now place kind → IsFault result place kind }
{
    read(alloc, bytes)
}

/// The line and column of an offset in the text or at its end, both counted from 1. A line ends with LF.
pub fn place_of(bytes: &[u8], offset: u32) -> Place
    requires within { offset ≤ length bytes.now }
    requires small { length bytes.now ≤ SOURCE_LIMIT }
    ensures line { result.line ≡ line_of (take offset bytes.now) }
    ensures column { result.column ≡ column_of (take offset bytes.now) }
{
    let mut line: u32 = 1;
    let mut column: u32 = 1;
    for byte in &bytes[..offset as usize] {
        if *byte == b'\n' {
            line += 1;
            column = 1;
        } else {
            column += 1;
        }
    }
    Place { line, column }
}
