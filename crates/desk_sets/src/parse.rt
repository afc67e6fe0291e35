// Trees parsed step by step, and the stack drawn where a parse stops.
use desk_page::{line_at, put_columns, put_place, put_wrapped, word_column};
use desk_rule_lines::{line_of, put_rule, put_symbol};
use desk_tables::{Drawing, Parse, START, Step, Tree, Word, tree_of};
use gg_base::NoMemory;
use lr_tables::{State, Tables};
use std::alloc::{AllocError, Global};
use tree_core::{Tok, tokens};

// The most steps that are told of one tree.
const MOST_STEPS: u32 = 10_000;

// The widths of a step's columns: its number, the token that comes, what is done, and the stack.
static WIDTHS: [usize; 4] = [5, 8, 52, 66];

// The symbols on the stack, the top last; of a high stack the upper ones.
fn stack_of(alloc: Global, tables: &Tables, parse: &Parse) -> Result<String, NoMemory> {
    let mut text = String::new(alloc);
    let high = parse.entries.len().saturating_sub(12);
    if high > 0 {
        text.push_str("..")?;
    }
    for entry in parse.entries.iter().skip(high) {
        if !text.is_empty() {
            text.push(' ')?;
        }
        put_symbol(&mut text, tables.description().classes(), entry.symbol)?;
    }
    Ok(text)
}

// What a rule's reduction is called: its line, and the rule.
fn reduction(
    alloc: Global,
    tables: &Tables,
    lines: &[u32],
    number: u16,
) -> Result<String, NoMemory> {
    let number = number as usize;
    let mut text = format!(in alloc; "line {}: ", line_of(lines, number))?;
    put_rule(&mut text, tables.description(), number)?;
    Ok(text)
}

// What a step does.
fn deed_of(alloc: Global, tables: &Tables, lines: &[u32], step: Step) -> Result<String, NoMemory> {
    match step {
        Step::Shift => Ok(String::from_str(alloc, "shift")?),
        Step::Reduce(number) | Step::Turn(number) => reduction(alloc, tables, lines, number),
        Step::Accept => Ok(String::from_str(alloc, "accept")?),
        Step::Block => Ok(String::from_str(alloc, "nothing may be done")?),
    }
}

// A step that was done: its number from 1, and the token that came.
#[derive(Clone, Copy)]
struct Done {
    number: u32,
    token: Tok,
    step: Step,
}

// A step: its number, the token that came, what was done, and the stack behind it.
fn put_step(
    alloc: Global,
    tables: &Tables,
    lines: &[u32],
    done: Done,
    parse: &Parse,
    told: &mut String,
) -> Result<(), NoMemory> {
    let number = format!(in alloc; "{:>5}", done.number)?;
    let token = done.token.name();
    let deed = deed_of(alloc, tables, lines, done.step)?;
    let stack = stack_of(alloc, tables, parse)?;
    put_columns(
        alloc,
        told,
        &mut [number.as_str(), token, deed.as_str(), stack.as_str()],
        &WIDTHS,
    )
}

// What may come at a state.
fn put_awaited(told: &mut String, tables: &Tables, state: State) -> Result<(), AllocError> {
    told.push_str("; what may come:")?;
    for token in tokens() {
        if !tables.action(state, *token).is_empty() {
            told.push(' ')?;
            told.push_str(token.name())?;
        }
    }
    Ok(())
}

/// Adds the item sets on the stack, from the bottom up, with the symbols between them, and what may come at the top.
pub fn put_stack(
    alloc: Global,
    tables: &Tables,
    parse: &Parse,
    told: &mut String,
) -> Result<(), NoMemory> {
    let drawing = Drawing::new(alloc, tables);
    let mut kernel = Vec::from_slice(alloc, &[START])?;
    drawing.put_kernel(told, State::START, &kernel)?;
    for entry in &parse.entries {
        kernel = drawing.moved(&kernel, entry.symbol)?;
        writeln!(told, "  |\n  v {}\n  |", drawing.name_of(entry.symbol))?;
        drawing.put_kernel(told, entry.state, &kernel)?;
    }
    let mut line = format!(in alloc; "  x {} comes", parse.coming().name())?;
    put_awaited(&mut line, tables, parse.state())?;
    put_wrapped(told, &line, "      ")
}

// The end of a parse.
fn put_end(
    alloc: Global,
    tables: &Tables,
    step: Step,
    parse: &Parse,
    told: &mut String,
) -> Result<(), NoMemory> {
    match step {
        Step::Accept => told.push_str("accepted\n")?,
        Step::Block => {
            put_stack(alloc, tables, parse, told)?;
            told.push_str("the parse blocks\n")?;
        }
        Step::Turn(_) => {
            put_stack(alloc, tables, parse, told)?;
            told.push_str("the parse loops: this class was on top of this stack before\n")?;
        }
        Step::Shift | Step::Reduce(_) => writeln!(told, "no end within {MOST_STEPS} steps")?,
    }
    Ok(())
}

/// Adds the parse of a tree, step by step, and how it ends.
pub fn put_parse(
    alloc: Global,
    tables: &Tables,
    lines: &[u32],
    words: Vec<Word>,
    told: &mut String,
) -> Result<(), NoMemory> {
    let mut parse = Parse::new(alloc, words);
    let mut step = Step::Shift;
    for number in 1..=MOST_STEPS {
        let token = parse.coming();
        step = parse.step(tables)?;
        let done = Done {
            number,
            token,
            step,
        };
        put_step(alloc, tables, lines, done, &parse, told)?;
        if step.is_last() {
            break;
        }
    }
    put_end(alloc, tables, step, &parse, told)
}

/// Adds how the parse of a tree ends.
pub fn put_stop(
    alloc: Global,
    tables: &Tables,
    words: Vec<Word>,
    told: &mut String,
) -> Result<(), NoMemory> {
    let mut parse = Parse::new(alloc, words);
    let mut step = Step::Shift;
    for _ in 0..MOST_STEPS {
        step = parse.step(tables)?;
        if step.is_last() {
            break;
        }
    }
    put_end(alloc, tables, step, &parse, told)
}

// The line, counted from 1, and its word, counted from 0, which is no token with its answers.
fn put_unknown(
    alloc: Global,
    trees: &str,
    line: u32,
    word: usize,
    told: &mut String,
) -> Result<(), NoMemory> {
    let bytes = line_at(trees.as_bytes(), line).unwrap_or(&[]);
    let column = word_column(bytes, word);
    writeln!(told, "input:{line}:{column}: no token is written so")?;
    put_place(alloc, told, trees.as_bytes(), line, column)
}

/// Adds the parse of each tree, a line of tokens in prefix order: step by step, and the stack where it stops. Behind a token may stand a
/// `=` and letters `y` and `n`: what the rules that begin there are answered where they ask, in order.
pub fn put_parses(
    alloc: Global,
    tables: &Tables,
    lines: &[u32],
    trees: &str,
    told: &mut String,
) -> Result<(), NoMemory> {
    let mut number: u32 = 0;
    for tree in trees.lines() {
        number = number.saturating_add(1);
        if tree.trim_ascii().is_empty() {
            continue;
        }
        match tree_of(alloc, tree)? {
            Tree::Words(words) => {
                writeln!(told, "{}", tree.trim_ascii())?;
                put_parse(alloc, tables, lines, words, told)?;
            }
            Tree::Unknown(word) => put_unknown(alloc, trees, number, word, told)?,
        }
    }
    Ok(())
}
