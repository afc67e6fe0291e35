// Rows of the subject `terms`. `form T` asks for the normal form of the term T, `known T` for that under what is known of six symbols,
// `order T U` how T and U stand in the order and whether they are the same, `saved T` what is stored of the term T of a saved byte, and
// `large` for terms of 16,384 and 10,001 symbols. The lines before `=> effects` are a description; behind each of its rules is written what
// the rule's pattern does, and the normal form of that.
use crate::effects::{put_effects, put_saved};
use crate::words::{put_words, read_term};
use gg_base::{NoMemory, Size};
use std::alloc::Global;
use term_core::{BinaryOp, Fact, Term, binary, compare, copy, norm, norm_under, same_term};

fn fact(size: Size, is_count: bool, same_as: u8) -> Fact {
    Fact {
        size,
        is_count,
        same_as,
    }
}

// Symbol 2 is a byte and 3 a word, 4 is a constant from 0 to 31, and 5 is spelled like 2.
fn known() -> [Fact; 6] {
    [
        fact(Size::Long, false, 0),
        fact(Size::Long, false, 1),
        fact(Size::Byte, false, 2),
        fact(Size::Word, false, 3),
        fact(Size::Long, true, 4),
        fact(Size::Byte, false, 2),
    ]
}

fn answer_form(
    alloc: Global,
    facts: &[Fact],
    text: &str,
    told: &mut String,
) -> Result<(), NoMemory> {
    let t = read_term(alloc, text)?;
    let normal = norm_under(alloc, facts, &t)?;
    write!(told, "{text} -> ")?;
    put_words(alloc, told, &normal)?;
    told.push('\n')?;
    Ok(())
}

fn answer_order(alloc: Global, text: &str, told: &mut String) -> Result<(), NoMemory> {
    let (first, second) = text.split_once(' ').unwrap_or((text, text));
    let t = read_term(alloc, first)?;
    let u = read_term(alloc, second)?;
    let order = compare(alloc, &t, &u)?;
    let is_same = same_term(alloc, &t, &u)?;
    writeln!(told, "{first} {second}: {order:?}, the same: {is_same}")?;
    Ok(())
}

// Whether the term is its own normal form.
fn is_normal(alloc: Global, t: &Term) -> Result<bool, NoMemory> {
    let normal = norm(alloc, t)?;
    same_term(alloc, &normal, t)
}

fn doubled(alloc: Global, t: Term) -> Result<Term, NoMemory> {
    let again = copy(alloc, &t)?;
    binary(alloc, BinaryOp::Add, t, again)
}

// A sum in which each part is as deep as the other is its own normal form.
fn is_balanced_kept(alloc: Global) -> Result<bool, NoMemory> {
    let mut balanced = Term::V(1);
    for _ in 0..14 {
        balanced = doubled(alloc, balanced)?;
    }
    is_normal(alloc, &balanced)
}

fn one_sided(alloc: Global) -> Result<Term, NoMemory> {
    let mut t = Term::V(1);
    for _ in 0..10_000 {
        t = binary(alloc, BinaryOp::Sub, t, Term::V(2))?;
    }
    Ok(t)
}

// A difference in which the left part grows has a normal form that is its own.
fn is_one_sided_kept(alloc: Global) -> Result<bool, NoMemory> {
    let t = one_sided(alloc)?;
    let normal = norm(alloc, &t)?;
    is_normal(alloc, &normal)
}

fn answer_large(alloc: Global, told: &mut String) -> Result<(), NoMemory> {
    let balanced = is_balanced_kept(alloc)?;
    let one_sided = is_one_sided_kept(alloc)?;
    writeln!(told, "large: {balanced} {one_sided}")?;
    Ok(())
}

// Adds what the patterns of the description's rules do, and forgets its lines.
fn answer_effects(alloc: Global, text: &mut String, told: &mut String) -> Result<(), NoMemory> {
    put_effects(alloc, text, told)?;
    text.clear();
    Ok(())
}

// Adds what is said of a row; a line that asks nothing is one of a description's.
fn answer_row(
    alloc: Global,
    row: &str,
    text: &mut String,
    told: &mut String,
) -> Result<(), NoMemory> {
    match row.split_once(' ') {
        Some(("form", term)) => answer_form(alloc, &[], term, told),
        Some(("known", term)) => answer_form(alloc, &known(), term, told),
        Some(("order", terms)) => answer_order(alloc, terms, told),
        Some(("saved", term)) => put_saved(alloc, term, told),
        Some(("=>", "effects")) => answer_effects(alloc, text, told),
        None if row == "large" => answer_large(alloc, told),
        _ => Ok(writeln!(text, "{row}")?),
    }
}

/// Adds what is said of each row's terms, and of each description's rules.
pub fn answer_terms(alloc: Global, rows: &str, told: &mut String) -> Result<(), NoMemory> {
    let mut text = String::new(alloc);
    for row in rows.lines() {
        answer_row(alloc, row, &mut text, told)?;
    }
    Ok(())
}
