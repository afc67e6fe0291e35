// The forms of lines, whatever the lines before say.
ghost use Rattle.std.specs.Prelude.{◌≡◌, ◌≤◌, ◌^◌, IfSome};
ghost use Rattle.std.specs.Option.{option_map};
ghost use Rattle.md_reader_text.specs.Words.{words};
ghost use Rattle.md_reader.specs.Forms.{is_version, is_target, register_of, with_register, pool_from, pool_form};
ghost use Rattle.md_reader.specs.Forms.{in_name, is_name, plain_kind, sized_kind, kind_form};
ghost use Rattle.md_reader.specs.Forms.{class_form, sized_form, spill_words, spill_form, saved_number};
ghost use Rattle.md_reader.specs.RuleForms.{rule_form, symbol_number, same_form, range_form, restriction_form};
ghost use Rattle.md_reader.specs.RuleForms.{if_form, do_form, give_form, plain_give, has_register, gives_register};
ghost use Rattle.md_reader.specs.RuleForms.{is_passed, register_behind};

use crate::types::{Give, Kind, Restriction};
use gg_base::Size;
use md_reader_text::{integer, is_word, next_word, number};
use md_types::{ExpandedLine, are_both, is_skipped, size_number, size_of};

/// What a spill line saves; or the reload line.
#[derive(Clone, Copy, Debug, PartialEq, Eq)]
pub enum Saved {
    Value(Size),
    Place(Size),
    Ea,
    Reload,
}

impl Saved {
    /// Where the line stands among the eight, from 0.
    pub fn number(self) -> usize
        ensures { result ≡ saved_number self }
    {
        match self {
            Saved::Value(size) => size_number(size),
            Saved::Place(size) => 3 + size_number(size),
            Saved::Ea => 6,
            Saved::Reload => 7,
        }
    }
}

/// Whether the line is `version 1`, or `version 2` above lines in which rules were written out.
pub fn is_version(line: &[u8]) -> bool
    ensures { result ≡ is_version (words line.now) }
{
    are_both(line, "version", "1") || are_both(line, "version", "2")
}

/// Whether the line is `target` with this word behind it. An empty text and one with a blank are no words: no line has them.
pub fn is_target(target: &[u8], line: &[u8]) -> bool
    ensures { result ≡ is_target target.now (words line.now) }
{
    let Some((a, rest)) = next_word(line) else {
        return false;
    };
    let Some((b, rest)) = next_word(rest) else {
        return false;
    };
    next_word(rest).is_none() && is_word(a, "target") && b == target
}

fn register_of(word: &[u8]) -> Option<u32>
    ensures is { result ≡ register_of word.now }
    ensures small { IfSome result (λ n. n ≤ 11) }
{
    match word {
        [b'r', digits @ ..] => {
            let number = number(255, digits)?;
            if number <= 11 { Some(number) } else { None }
        }
        _ => None,
    }
}

fn with_register(pool: u16, register: Option<u32>) -> Option<u16>
    requires { IfSome register (λ n. n ≤ 11) }
    ensures { result ≡ with_register pool register }
{
    let register = register?;
    let bit: u16 = 1 << register;
    if pool & bit == 0 {
        Some(pool | bit)
    } else {
        None
    }
}

fn pool_from(line: &[u8]) -> Option<u16>
    ensures { result ≡ pool_from 0 (words line.now) }
{
    let mut pool: u16 = 0;
    let mut rest = line;
    while let Some((word, after)) = next_word(rest) {
        pool = with_register(pool, register_of(word))?;
        rest = after;
    }
    Some(pool)
}

/// The registers of `pool rN ..`: bit N for register N.
pub fn pool_form(line: &[u8]) -> Option<u16>
    ensures { result ≡ pool_form (words line.now) }
{
    let (a, rest) = next_word(line)?;
    if next_word(rest).is_none() || !is_word(a, "pool") {
        return None;
    }
    pool_from(rest)
}

fn in_name(byte: u8) -> bool
    ensures { result ≡ in_name byte }
{
    byte.is_ascii_lowercase() || byte.is_ascii_digit()
}

fn are_in_name(bytes: &[u8]) -> bool
    ensures { result ≡ list_all in_name bytes.now }
{
    bytes.iter().all(|byte| in_name(*byte))
}

ghost use Rattle.std.specs.List.{list_all};

fn is_name(word: &[u8]) -> bool
    ensures { result ≡ is_name word.now }
{
    match word {
        [] => false,
        [first, others @ ..] => first.is_ascii_lowercase()
            && others.len() <= 30
            && are_in_name(others),
    }
}

fn plain_kind(word: &[u8]) -> Option<Kind>
    ensures { result ≡ plain_kind word.now }
{
    if is_word(word, "Reg") {
        Some(Kind::Reg)
    } else if is_word(word, "Con") {
        Some(Kind::Con)
    } else if is_word(word, "Ea") {
        Some(Kind::Ea)
    } else if is_word(word, "Nothing") {
        Some(Kind::Nothing)
    } else {
        None
    }
}

fn sized_kind(word: &[u8], size: Size) -> Option<Kind>
    ensures { result ≡ sized_kind word.now size }
{
    if is_word(word, "Value") {
        Some(Kind::Value(size))
    } else if is_word(word, "Place") {
        Some(Kind::Place(size))
    } else {
        None
    }
}

fn kind_form(line: &[u8]) -> Option<Kind>
    ensures { result ≡ kind_form (words line.now) }
{
    let (kind, rest) = next_word(line)?;
    let Some((size, rest)) = next_word(rest) else {
        return plain_kind(kind);
    };
    if next_word(rest).is_some() {
        return None;
    }
    sized_kind(kind, size_of(size)?)
}

/// The name and the kind of `class NAME KIND`.
pub fn class_form(line: &[u8]) -> Option<(&[u8], Kind)>
    ensures { option_map (λ x. (x.0.now, x.1)) result ≡ class_form (words line.now) }
{
    let (a, rest) = next_word(line)?;
    let (name, rest) = next_word(rest)?;
    if !is_word(a, "class") || !is_name(name) {
        return None;
    }
    let kind = kind_form(rest)?;
    Some((name, kind))
}

fn spill_words(line: &[u8]) -> Option<(Saved, &[u8])>
    ensures { option_map (λ x. (x.0, words x.1.now)) result ≡ spill_words (words line.now) }
{
    let (a, rest) = next_word(line)?;
    if is_word(a, "ea") {
        return Some((Saved::Ea, rest));
    }
    let (size, rest) = next_word(rest)?;
    let size = size_of(size)?;
    if is_word(a, "value") {
        Some((Saved::Value(size), rest))
    } else if is_word(a, "place") {
        Some((Saved::Place(size), rest))
    } else {
        None
    }
}

/// What a spill line saves, or that it is the reload line, and the words of its instruction.
pub fn spill_form(line: &[u8]) -> Option<(Saved, &[u8])>
    ensures { option_map (λ x. (x.0, words x.1.now)) result ≡ spill_form (words line.now) }
{
    let (a, rest) = next_word(line)?;
    if is_word(a, "reload") {
        return Some((Saved::Reload, rest));
    }
    if is_word(a, "spill") {
        spill_words(rest)
    } else {
        None
    }
}

/// The class and the symbols of `rule CLASS : SYMBOL ..`.
pub fn rule_form(line: &[u8]) -> Option<(&[u8], &[u8])>
    ensures { option_map (λ x. (x.0.now, words x.1.now)) result ≡ rule_form (words line.now) }
{
    let (a, rest) = next_word(line)?;
    let (class, rest) = next_word(rest)?;
    let (colon, rest) = next_word(rest)?;
    if next_word(rest).is_none() {
        return None;
    }
    if !is_word(a, "rule") || !is_word(colon, ":") {
        return None;
    }
    Some((class, rest))
}

fn symbol_number(word: &[u8]) -> Option<u8>
    ensures { result ≡ symbol_number word.now }
{
    let number = number(255, word)?;
    Some(number as u8)
}

fn signed_form(symbol: &[u8]) -> Option<Restriction>
    ensures { result ≡ option_map restriction.Signed (symbol_number symbol.now) }
{
    let symbol = symbol_number(symbol)?;
    Some(Restriction::Signed(symbol))
}

ghost use Rattle.md_reader.specs.declared.types.Restriction.TheVariants as restriction;

fn same_form(first: &[u8], second: &[u8]) -> Option<Restriction>
    ensures { result ≡ same_form (symbol_number first.now) (symbol_number second.now) }
{
    let first = symbol_number(first)?;
    let second = symbol_number(second)?;
    Some(Restriction::Same(first, second))
}

ghost use Rattle.md_reader_text.specs.Numbers.{integer};

fn range_form(symbol: &[u8], low: &[u8], high: &[u8]) -> Option<Restriction>
    ensures { result ≡ range_form (symbol_number symbol.now) (integer low.now) (integer high.now) }
{
    let symbol = symbol_number(symbol)?;
    let low = integer(low)?;
    let high = integer(high)?;
    Some(Restriction::Range(symbol, low, high))
}

fn restriction_form(line: &[u8]) -> Option<Restriction>
    ensures { result ≡ restriction_form (words line.now) }
{
    let (kind, rest) = next_word(line)?;
    let (a, rest) = next_word(rest)?;
    let Some((b, rest)) = next_word(rest) else {
        return if is_word(kind, "signed") {
            signed_form(a)
        } else {
            None
        };
    };
    let Some((c, rest)) = next_word(rest) else {
        return if is_word(kind, "same") {
            same_form(a, b)
        } else {
            None
        };
    };
    if next_word(rest).is_some() || !is_word(kind, "range") {
        return None;
    }
    range_form(a, b, c)
}

/// The restriction of an `if` line.
pub fn if_form(line: &[u8]) -> Option<Restriction>
    ensures { result ≡ if_form (words line.now) }
{
    let (a, rest) = next_word(line)?;
    if is_word(a, "if") {
        restriction_form(rest)
    } else {
        None
    }
}

/// The words of the instruction of a `do` line.
pub fn do_form(line: &[u8]) -> Option<&[u8]>
    ensures { option_map (λ x. words x.now) result ≡ do_form (words line.now) }
{
    let (a, rest) = next_word(line)?;
    if is_word(a, "do") { Some(rest) } else { None }
}

/// The word of a `give` line.
pub fn give_form(line: &[u8]) -> Option<&[u8]>
    ensures { option_map (λ x. x.now) result ≡ give_form (words line.now) }
{
    let (a, rest) = next_word(line)?;
    let (word, rest) = next_word(rest)?;
    if next_word(rest).is_some() || !is_word(a, "give") {
        return None;
    }
    Some(word)
}

/// What the word of a `give` line says, unless it is an operand.
pub fn plain_give(word: &[u8]) -> Option<Give>
    ensures { result ≡ plain_give word.now }
{
    if is_word(word, "fresh") {
        Some(Give::Fresh)
    } else if is_word(word, "reuse") {
        Some(Give::Reuse)
    } else if is_word(word, "scratch") {
        Some(Give::Scratch)
    } else if is_word(word, "nothing") {
        Some(Give::Nothing)
    } else {
        None
    }
}

fn has_register(give: Option<Give>) -> bool
    ensures { result ≡ has_register give }
{
    matches!(
        give,
        Some(Give::Fresh) | Some(Give::Reuse) | Some(Give::Scratch)
    )
}

fn gives_register(line: &[u8]) -> bool
    ensures { result ≡ gives_register (give_form (words line.now)) }
{
    match give_form(line) {
        None => true,
        Some(word) => has_register(plain_give(word)),
    }
}

fn is_passed(line: &[u8]) -> bool
    ensures { result ≡ is_passed (words line.now) }
{
    match next_word(line) {
        None => true,
        Some((word, _)) => is_skipped(line) || is_word(word, "if") || is_word(word, "do"),
    }
}

/// Whether `%0` may stand in the template of the rule in front of these lines: unless a `give` line
/// follows that gives the rule no register.
pub fn register_behind(lines: &[ExpandedLine]) -> bool
    ensures { result ≡ register_behind lines.now }
{
    for line in lines {
        let bytes = line.bytes.as_slice();
        if !is_passed(bytes) {
            return gives_register(bytes);
        }
    }
    true
}
