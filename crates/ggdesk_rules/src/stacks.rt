// The item sets on the stack where the parse of a tree stops, drawn.
use desk_tables::{Drawing, START, token_named};
use gg_base::NoMemory;
use lr_tables::{Choice, State, Tables};
use md_reader::Sym;
use std::alloc::{AllocError, Global};
use tree_core::Tok;

// The most steps of a parse that is drawn.
const MOST_STEPS: u32 = 10_000;

// The state to which the symbols lead from the start.
fn state_of(tables: &Tables, symbols: &[Sym]) -> State {
    symbols.iter().fold(State::START, |state, symbol| {
        tables.over(state, *symbol).unwrap_or(State::START)
    })
}

// The first choice before a token, done on the stack of symbols.
fn step(tables: &Tables, symbols: &mut Vec<Sym>, token: Tok) -> Result<Option<Choice>, AllocError> {
    let choice = tables
        .action(state_of(tables, symbols), token)
        .first()
        .copied();
    match choice {
        Some(Choice::Shift(_)) => symbols.push(Sym::Tok(token))?,
        Some(Choice::Reduce(number)) => {
            if let Some(rule) = tables.description().rules().get(number as usize) {
                let length = rule.right.as_slice().len();
                symbols.truncate(symbols.len().saturating_sub(length));
                symbols.push(Sym::Class(rule.left))?;
            }
        }
        _ => {}
    }
    Ok(choice)
}

// The parse of the words' tokens with `End` behind them; each question is answered yes. It leaves the stack of symbols, and answers the
// word before which nothing may be taken, or none where it accepts.
fn parsed<'a>(
    tables: &Tables,
    words: &'a str,
    symbols: &mut Vec<Sym>,
) -> Result<Option<&'a str>, AllocError> {
    let mut words = words.split(' ');
    let mut word = words.next().unwrap_or("End");
    for _ in 0..MOST_STEPS {
        let Some(token) = token_named(word) else {
            return Ok(Some(word));
        };
        match step(tables, symbols, token)? {
            Some(Choice::Shift(_)) => word = words.next().unwrap_or("End"),
            Some(Choice::Reduce(_)) => {}
            Some(Choice::Accept) => return Ok(None),
            None => return Ok(Some(word)),
        }
    }
    Ok(None)
}

// What may come at a state: the tokens of the rules' patterns, in the order of the rules, and `End`.
fn put_awaited(
    alloc: Global,
    told: &mut String,
    tables: &Tables,
    state: State,
) -> Result<(), AllocError> {
    let mut awaited = Vec::new(alloc);
    for rule in tables.description().rules() {
        for symbol in rule.right.as_slice() {
            if let Sym::Tok(token) = symbol {
                if !awaited.contains(token) && !tables.action(state, *token).is_empty() {
                    awaited.push(*token)?;
                }
            }
        }
    }
    if !tables.action(state, Tok::End).is_empty() {
        awaited.push(Tok::End)?;
    }
    for token in &awaited {
        told.push(' ')?;
        told.push_str(token.name())?;
    }
    Ok(())
}

/// Adds the item sets on the stack where the parse of the words' tokens stops, from the bottom up, with the symbols between them.
pub fn put_stack(
    alloc: Global,
    tables: &Tables,
    words: &str,
    told: &mut String,
) -> Result<(), NoMemory> {
    let mut symbols = Vec::new(alloc);
    let before = parsed(tables, words, &mut symbols)?;
    let drawing = Drawing::new(alloc, tables);
    let mut kernel = Vec::from_slice(alloc, &[START])?;
    let mut state = State::START;
    drawing.put_kernel(told, state, &kernel)?;
    for symbol in &symbols {
        kernel = drawing.moved(&kernel, *symbol)?;
        state = tables.over(state, *symbol).unwrap_or(State::START);
        writeln!(told, "  |\n  v {}\n  |", drawing.name_of(*symbol))?;
        drawing.put_kernel(told, state, &kernel)?;
    }
    match before {
        Some(word) => {
            write!(told, "  x {word} comes; what may come:")?;
            put_awaited(alloc, told, tables, state)?;
        }
        None => told.push_str("  = accepted")?,
    }
    told.push('\n')?;
    Ok(())
}
