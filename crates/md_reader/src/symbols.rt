// What the words of a rule's head name.
ghost use Rattle.std.specs.Prelude.{◌≡◌, ◌≤◌, length, nat_le, IfOk};
ghost use Rattle.md_reader_text.specs.Words.{words};
ghost use Rattle.md_reader.specs.Symbols.{token_of, class_of, token_or_class, symbol_of, symbols_of};
ghost use Rattle.md_reader.specs.View.{AreSymbols};

use crate::faults::{DescKind, LineFault};
use crate::types::{Class, Sym};
use md_reader_text::{is_word, next_word};
use std::alloc::Global;
use tree_core::{TOKENS, Tok};

fn token_among(tokens: &[Tok], word: &[u8]) -> Option<Tok>
    ensures { result ≡ token_among tokens.now word.now }
{
    tokens.iter().find(|tok| is_word(word, tok.name())).copied()
}

ghost use Rattle.md_reader.specs.Symbols.{token_among};

fn token_of(word: &[u8]) -> Option<Tok>
    ensures { result ≡ token_of word.now }
{
    token_among(&TOKENS[..39], word)
}

fn is_named(class: &Class, word: &[u8]) -> bool
    ensures { result ≡ same class.now.name word.now }
{
    class.name.as_slice() == word
}

ghost use Rattle.md_reader_text.specs.Words.{same};

/// The number of the class with this name.
pub fn class_of(classes: &[Class], word: &[u8]) -> Option<u16>
    requires { length classes.now ≤ 64 }
    ensures { result ≡ class_of classes.now word.now }
{
    match classes.iter().position(|class| is_named(class, word)) {
        Some(number) => Some(number as u16),
        None => None,
    }
}

fn symbol_of(classes: &[Class], word: &[u8]) -> Option<Sym>
    requires { length classes.now ≤ 64 }
    ensures { result ≡ symbol_of classes.now word.now }
{
    match token_of(word) {
        Some(tok) => Some(Sym::Tok(tok)),
        None => match class_of(classes, word) {
            Some(class) => Some(Sym::Class(class)),
            None => None,
        },
    }
}

/// Whether the line has at most as many words as a right side may have symbols.
pub fn is_short(line: &[u8]) -> bool
    ensures { result ≡ nat_le (length (words line.now)) 16 }
{
    let mut rest = line;
    let mut count: usize = 0;
    while let Some((_, after)) = next_word(rest) {
        if count == 16 {
            return false;
        }
        count += 1;
        rest = after;
    }
    true
}

/// The symbols that the line's words name.
pub fn symbols_of(alloc: Global, classes: &[Class], line: &[u8]) -> Result<Vec<Sym>, LineFault>
    requires few { length classes.now ≤ 64 }
    requires short { length (words line.now) ≤ 16 }
    ensures are { AreSymbols result (symbols_of classes.now (words line.now)) }
    ensures short { IfOk result (λ v. length v.items ≤ 16) }
{
    let mut read = Vec::new(alloc);
    let mut rest = line;
    while let Some((word, after)) = next_word(rest) {
        let Some(sym) = symbol_of(classes, word) else {
            return Err(LineFault::Wrong(DescKind::UnknownToken));
        };
        read.push(sym)?;
        rest = after;
    }
    Ok(read)
}
