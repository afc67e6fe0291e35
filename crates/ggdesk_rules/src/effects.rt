// What the patterns of a description's rules do.
use crate::found::description_of;
use crate::words::{put_bytes, read_term};
use gg_base::{NoMemory, Size};
use md_reader::{Description, Kind, Rule};
use sel_terms::{
    Act, Effect, norm_effect, pattern_effect, rule_facts, same_effect, saved_facts, show_effect,
};
use std::alloc::Global;
use term_core::Fact;

/// Adds the effect's text.
pub fn put_effect(alloc: Global, told: &mut String, effect: &Effect) -> Result<(), NoMemory> {
    put_bytes(told, show_effect(alloc, effect)?.as_slice())
}

// An effect, and its normal form where that is another.
fn put_forms(
    alloc: Global,
    effect: &Effect,
    normal: &Effect,
    told: &mut String,
) -> Result<(), NoMemory> {
    told.push_str("# does ")?;
    put_effect(alloc, told, effect)?;
    told.push_str("\n# normal form ")?;
    if same_effect(alloc, effect, normal)? {
        told.push_str("the same")?;
    } else {
        put_effect(alloc, told, normal)?;
    }
    told.push('\n')?;
    Ok(())
}

fn put_normal(
    alloc: Global,
    facts: &[Fact],
    effect: &Effect,
    told: &mut String,
) -> Result<(), NoMemory> {
    let normal = norm_effect(alloc, facts, effect)?;
    put_forms(alloc, effect, &normal, told)
}

// What the rule's pattern does, and the normal form of that.
fn put_rule(
    alloc: Global,
    description: &Description,
    rule: &Rule,
    told: &mut String,
) -> Result<(), NoMemory> {
    if 16 < rule.right.as_slice().len() {
        told.push_str("too long\n")?;
        return Ok(());
    }
    let classes = description.classes();
    let facts = rule_facts(alloc, rule, classes)?;
    let effect = pattern_effect(alloc, rule, classes)?;
    put_normal(alloc, &facts, &effect, told)
}

// The lines of a description, with what each pattern does behind its rule's first line.
fn put_lines(
    alloc: Global,
    description: &Description,
    text: &str,
    told: &mut String,
) -> Result<(), NoMemory> {
    let mut rules = description.rules().iter();
    for line in text.lines() {
        writeln!(told, "{line}")?;
        if line.starts_with("rule ") {
            if let Some(rule) = rules.next() {
                put_rule(alloc, description, rule, told)?;
            }
        }
    }
    Ok(())
}

/// Adds the description with what each pattern does behind its rule's first line.
pub fn put_effects(alloc: Global, text: &str, told: &mut String) -> Result<(), NoMemory> {
    match description_of(alloc, text, told)? {
        Some(description) => put_lines(alloc, &description, text, told),
        None => Ok(()),
    }
}

// What is stored where a byte, or the place of one, is saved.
fn put_stored(alloc: Global, text: &str, kind: Kind, told: &mut String) -> Result<(), NoMemory> {
    let stored = read_term(alloc, text)?;
    let effect = Effect {
        act: Act::StoreHome(Size::Byte, 0, stored),
        divisors: Vec::new(alloc),
    };
    let normal = norm_effect(alloc, &saved_facts(kind), &effect)?;
    put_effect(alloc, told, &normal)
}

/// Adds the normal form of a store of the term, where symbol 1 is a byte that is saved, and where it is the address of one.
pub fn put_saved(alloc: Global, text: &str, told: &mut String) -> Result<(), NoMemory> {
    write!(told, "saved {text}: ")?;
    put_stored(alloc, text, Kind::Value(Size::Byte), told)?;
    told.push_str(", ")?;
    put_stored(alloc, text, Kind::Place(Size::Byte), told)?;
    told.push('\n')?;
    Ok(())
}
