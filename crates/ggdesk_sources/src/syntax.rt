// Rows of the subject `syntax`, each a C source in which ` stands for a line feed: where its tokens or phrases first go wrong. Of a row
// `tokens SOURCE` the tokens are written, each with its first offset and that behind it.
ghost use Rattle.std.specs.Prelude.{◌≤◌, length};
ghost use Rattle.gg_base.specs.declared.limits.TheConstants.{SOURCE_LIMIT};

use crate::marks::put_marked;
use c_syntax::{SyntaxFault, parse};
use c_tokens::{Spanned, Token, TokenFault, TokenKind, tokens};
use gg_base::NoMemory;
use gg_base::limits::SOURCE_LIMIT;
use std::alloc::{AllocError, Global};

// What is wrong at an offset of a source.
#[derive(Clone, Copy)]
struct Wrong {
    offset: u32,
    kind: &'static str,
}

fn token_kind(kind: TokenKind) -> &'static str {
    match kind {
        TokenKind::BadByte => "BadByte",
        TokenKind::BadNumber => "BadNumber",
        TokenKind::LongName => "LongName",
        TokenKind::BadEscape => "BadEscape",
        TokenKind::BadChar => "BadChar",
        TokenKind::Unclosed => "Unclosed",
    }
}

// What is wrong first in a source.
fn first_wrong(alloc: Global, source: &[u8]) -> Result<Option<Wrong>, NoMemory>
    requires { length source.now ≤ SOURCE_LIMIT }
{
    let list = match tokens(alloc, source) {
        Ok(list) => list,
        Err(TokenFault::NoMemory) => return Err(NoMemory),
        Err(TokenFault::At { place, kind }) => {
            return Ok(Some(Wrong {
                offset: place,
                kind: token_kind(kind),
            }));
        }
    };
    match parse(alloc, list.as_slice()) {
        Ok(_) => Ok(None),
        Err(SyntaxFault::NoMemory) => Err(NoMemory),
        Err(SyntaxFault::NotHere(offset)) => Ok(Some(Wrong {
            offset,
            kind: "NotHere",
        })),
        Err(SyntaxFault::TooDeep(offset)) => Ok(Some(Wrong {
            offset,
            kind: "TooDeep",
        })),
    }
}

fn source_of(alloc: Global, row: &str) -> Result<Vec<u8>, AllocError> {
    row.bytes()
        .map(|byte| if byte == b'`' { b'\n' } else { byte })
        .collect(alloc)
}

// A token and its offsets.
fn put_token(told: &mut String, token: &Spanned) -> Result<(), AllocError> {
    match &token.kind {
        Token::Name(name) => {
            let len = name.as_slice().len();
            write!(told, " name {len}")?;
        }
        Token::Number(value) => write!(told, " {value}")?,
        Token::Str(bytes) => {
            told.push_str(" str")?;
            for byte in bytes.as_slice() {
                write!(told, " {byte}")?;
            }
        }
        Token::Key(key) => write!(told, " {key}")?,
        Token::Mark(mark) => write!(told, " {mark}")?,
        Token::End => told.push_str(" end")?,
    }
    write!(told, " {}-{};", token.start, token.end)
}

fn answer_tokens(
    alloc: Global,
    row: &str,
    source: &[u8],
    told: &mut String,
) -> Result<(), AllocError>
    requires { length source.now ≤ SOURCE_LIMIT }
{
    let Ok(list) = tokens(alloc, source) else {
        return writeln!(told, "no tokens {row}");
    };
    write!(told, "{row} ->")?;
    for token in list.as_slice() {
        put_token(told, token)?;
    }
    told.push('\n')
}

fn answer_phrases(
    alloc: Global,
    row: &str,
    source: &[u8],
    told: &mut String,
) -> Result<(), NoMemory>
    requires { length source.now ≤ SOURCE_LIMIT }
{
    match first_wrong(alloc, source)? {
        Some(wrong) => put_marked(told, wrong.kind, row, wrong.offset as usize)?,
        None => writeln!(told, "ok {row}")?,
    }
    Ok(())
}

fn answer_row(alloc: Global, row: &str, told: &mut String) -> Result<(), NoMemory> {
    let (are_tokens, text) = match row.strip_prefix("tokens ") {
        Some(text) => (true, text),
        None => (false, row),
    };
    let source = source_of(alloc, text)?;
    if source.len() as u64 > SOURCE_LIMIT {
        told.push_str("too long\n")?;
        return Ok(());
    }
    if are_tokens {
        answer_tokens(alloc, text, source.as_slice(), told)?;
        return Ok(());
    }
    answer_phrases(alloc, text, source.as_slice(), told)
}

/// Adds what is read of each row's source.
pub fn answer_syntax(alloc: Global, rows: &str, told: &mut String) -> Result<(), NoMemory> {
    for row in rows.lines() {
        answer_row(alloc, row, told)?;
    }
    Ok(())
}
