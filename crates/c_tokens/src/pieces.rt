// The piece at the front of a text: a token, or what parts tokens.
ghost use Rattle.std.specs.Prelude.{◌≡◌, ◌≤◌, ◌<◌, ◌+◌, length, IfSome, IfOk};
ghost use Rattle.gg_base.specs.declared.limits.TheConstants.{SOURCE_LIMIT};
ghost use Rattle.c_tokens.specs.Pieces.{word_token, word_piece, number_piece, sign_copied, character_end, character_piece};
ghost use Rattle.c_tokens.specs.Pieces.{comment_len, string_from, string_token, mark_piece, slash_piece, piece_of};
ghost use Rattle.c_tokens.specs.Reading.{Gives};

use crate::escapes::element_of;
use crate::letters::{is_blank, is_digit, is_letter, word_len};
use crate::marks::mark_of;
use crate::numbers::number_of;
use crate::token::{Token, TokenFault, TokenKind};
use crate::words::key_of;
use gg_base::fronts::line_len;
use gg_base::limits::SOURCE_NAME_LIMIT;
use gg_base::{Bytes, Name};
use std::alloc::Global;

/// A piece of the text, and how many bytes it has. What parts tokens has none.
#[derive(Drop)]
pub struct Piece {
    pub token: Option<Token>,
    pub length: usize,
}

fn word_token(alloc: Global, word: &[u8], at: u32) -> Result<Token, TokenFault>
    ensures { Gives result (word_token at word.now) }
{
    if let Some(key) = key_of(word) {
        return Ok(Token::Key(key));
    }
    if word.len() > SOURCE_NAME_LIMIT {
        return Err(TokenFault::At {
            place: at,
            kind: TokenKind::LongName,
        });
    }
    Ok(Token::Name(Name::copy_of(alloc, word)?))
}

fn word_piece(alloc: Global, text: &[u8], at: u32) -> Result<Piece, TokenFault>
    ensures is { Gives result (word_piece at text.now) }
    ensures within { IfOk result (λ p. p.length ≤ length text.now) }
{
    let length = word_len(text);
    let token = word_token(alloc, &text[..length], at)?;
    Ok(Piece {
        token: Some(token),
        length,
    })
}

fn number_piece(text: &[u8], at: u32) -> Result<Piece, TokenFault>
    ensures is { Gives result (number_piece at text.now) }
    ensures within { IfOk result (λ p. p.length ≤ length text.now) }
{
    let length = word_len(text);
    match number_of(&text[..length]) {
        Some(value) => Ok(Piece {
            token: Some(Token::Number(value)),
            length,
        }),
        None => Err(TokenFault::At {
            place: at,
            kind: TokenKind::BadNumber,
        }),
    }
}

fn sign_copied(value: u8) -> u32
    ensures { result ≡ sign_copied value }
{
    if value < 128 {
        u32::from(value)
    } else {
        u32::from(value) + 0xffff_ff00
    }
}

// What stands behind the element of a character constant, which has so many bytes.
fn character_end(value: u8, taken: usize, rest: &[u8], at: u32) -> Result<Piece, TokenFault>
    requires { taken ≤ SOURCE_LIMIT }
    ensures is { Gives result (character_end at value taken rest.now) }
    ensures within { IfOk result (λ p. p.length ≤ taken + length rest.now + 1) }
{
    let [mark, ..] = rest else {
        return Err(TokenFault::At {
            place: at,
            kind: TokenKind::Unclosed,
        });
    };
    match *mark {
        b'\n' => Err(TokenFault::At {
            place: at,
            kind: TokenKind::Unclosed,
        }),
        b'\'' => Ok(Piece {
            token: Some(Token::Number(sign_copied(value))),
            length: taken + 2,
        }),
        _ => Err(TokenFault::At {
            place: at,
            kind: TokenKind::BadChar,
        }),
    }
}

// The character constant whose opening mark stands at the offset, in front of the text.
fn character_piece(text: &[u8], at: u32) -> Result<Piece, TokenFault>
    requires { at + length text.now < SOURCE_LIMIT }
    ensures is { Gives result (character_piece at text.now) }
    ensures within { IfOk result (λ p. p.length ≤ length text.now + 1) }
{
    let [first, ..] = text else {
        return Err(TokenFault::At {
            place: at,
            kind: TokenKind::Unclosed,
        });
    };
    if *first == b'\n' {
        return Err(TokenFault::At {
            place: at,
            kind: TokenKind::Unclosed,
        });
    }
    if *first == b'\'' {
        return Err(TokenFault::At {
            place: at,
            kind: TokenKind::BadChar,
        });
    }
    match element_of(text) {
        Some((value, length)) => character_end(value, length, &text[length..], at),
        None => Err(TokenFault::At {
            place: at + 1,
            kind: TokenKind::BadEscape,
        }),
    }
}

// The string whose opening mark stands at the offset, in front of the text: its bytes, and the length with the closing mark.
fn string_bytes(alloc: Global, text: &[u8], at: u32) -> Result<(Bytes, usize), TokenFault>
    requires { at + length text.now < SOURCE_LIMIT }
    ensures is { Gives result (string_from at (at + 1) 0 text.now) }
    ensures within { IfOk result (λ x. x.1 ≤ length text.now) }
{
    let mut values = Vec::new(alloc);
    let mut rest = text;
    let mut length: usize = 0;
    while let [first, ..] = rest {
        if *first == b'"' {
            return Ok((Bytes::from_vec(values), length + 1));
        }
        if *first == b'\n' {
            return Err(TokenFault::At {
                place: at,
                kind: TokenKind::Unclosed,
            });
        }
        let Some((value, taken)) = element_of(rest) else {
            return Err(TokenFault::At {
                place: at + 1 + length as u32,
                kind: TokenKind::BadEscape,
            });
        };
        values.push(value)?;
        length += taken;
        rest = &rest[taken..];
    }
    Err(TokenFault::At {
        place: at,
        kind: TokenKind::Unclosed,
    })
}

fn string_piece(alloc: Global, text: &[u8], at: u32) -> Result<Piece, TokenFault>
    requires { at + length text.now < SOURCE_LIMIT }
    ensures is { Gives result (string_token (string_from at (at + 1) 0 text.now)) }
    ensures within { IfOk result (λ p. p.length ≤ length text.now + 1) }
{
    let (bytes, length) = string_bytes(alloc, text, at)?;
    Ok(Piece {
        token: Some(Token::Str(bytes)),
        length: length + 1,
    })
}

// The length up to and with the first `*/`.
fn comment_len(text: &[u8]) -> Option<usize>
    ensures is { result ≡ comment_len text.now }
    ensures within { IfSome result (λ n. n ≤ length text.now) }
{
    let start = text.windows(2).position(|pair| pair == b"*/".as_slice())?;
    Some(start + 2)
}

fn mark_piece(text: &[u8], at: u32) -> Result<Piece, TokenFault>
    ensures is { Gives result (mark_piece at text.now) }
    ensures within { IfOk result (λ p. p.length ≤ length text.now) }
{
    match mark_of(text) {
        Some(mark) => Ok(Piece {
            token: Some(Token::Mark(mark)),
            length: mark.spelling().len(),
        }),
        None => Err(TokenFault::At {
            place: at,
            kind: TokenKind::BadByte,
        }),
    }
}

// What the sign `/` at the front begins, by what stands behind it.
fn slash_piece(behind: &[u8], text: &[u8], at: u32) -> Result<Piece, TokenFault>
    requires one { length text.now ≡ length behind.now + 1 }
    requires small { length text.now ≤ SOURCE_LIMIT }
    ensures is { Gives result (slash_piece at behind.now text.now) }
    ensures within { IfOk result (λ p. p.length ≤ length text.now) }
{
    let [second, others @ ..] = behind else {
        return mark_piece(text, at);
    };
    if *second == b'*' {
        return match comment_len(others) {
            Some(length) => Ok(Piece {
                token: None,
                length: length + 2,
            }),
            None => Err(TokenFault::At {
                place: at,
                kind: TokenKind::Unclosed,
            }),
        };
    }
    if *second == b'/' {
        return Ok(Piece {
            token: None,
            length: line_len(others) + 2,
        });
    }
    mark_piece(text, at)
}

/// The piece at the front of a text that begins at the offset.
pub fn piece_of(alloc: Global, text: &[u8], at: u32) -> Result<Piece, TokenFault>
    requires some { 0 < length text.now }
    requires small { at + length text.now ≤ SOURCE_LIMIT }
    ensures is { Gives result (piece_of at text.now) }
    ensures within { IfOk result (λ p. p.length ≤ length text.now) }
{
    let [first, others @ ..] = text else {
        return mark_piece(text, at);
    };
    if is_blank(*first) {
        return Ok(Piece {
            token: None,
            length: 1,
        });
    }
    if is_letter(*first) {
        return word_piece(alloc, text, at);
    }
    if is_digit(*first) {
        return number_piece(text, at);
    }
    match *first {
        b'\'' => character_piece(others, at),
        b'"' => string_piece(alloc, others, at),
        b'/' => slash_piece(others, text, at),
        _ => mark_piece(text, at),
    }
}
