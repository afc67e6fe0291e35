// Rules and symbols as they are written in a description.
use gg_base::NoMemory;
use md_reader::{Class, Description, Sym};
use std::str;

fn class_name(classes: &[Class], number: u16) -> &str {
    match classes.get(number as usize) {
        Some(class) => str::from_utf8(class.name.as_slice()).unwrap_or("?"),
        None => "?",
    }
}

/// Adds a symbol's name.
pub fn put_symbol(told: &mut String, classes: &[Class], symbol: Sym) -> Result<(), NoMemory> {
    told.push_str(match symbol {
        Sym::Tok(token) => token.name(),
        Sym::Class(number) => class_name(classes, number),
    })?;
    Ok(())
}

/// Adds symbols with blanks between them.
pub fn put_symbols(told: &mut String, classes: &[Class], symbols: &[Sym]) -> Result<(), NoMemory> {
    for (place, symbol) in symbols.iter().enumerate() {
        if place > 0 {
            told.push(' ')?;
        }
        put_symbol(told, classes, *symbol)?;
    }
    Ok(())
}

/// Adds a rule by its number, from 0: its class, a colon and its symbols.
pub fn put_rule(
    told: &mut String,
    description: &Description,
    number: usize,
) -> Result<(), NoMemory> {
    if let Some(rule) = description.rules().get(number) {
        let classes = description.classes();
        put_symbol(told, classes, Sym::Class(rule.left))?;
        told.push_str(" : ")?;
        put_symbols(told, classes, rule.right.as_slice())?;
    }
    Ok(())
}
