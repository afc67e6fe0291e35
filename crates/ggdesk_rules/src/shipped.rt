// Whether the shipped description and the one of version 1 have equal rules, and tables that agree at every state.
use crate::found::tables_of;
use gg_base::NoMemory;
use gg_texts::{VAX_GG, VAX1_GG};
use lr_tables::{State, Tables};
use md_reader::{Give, Line, Piece, Rule};
use std::alloc::Global;
use tree_core::tokens;

fn is_same_piece(a: &Piece, b: &Piece) -> bool {
    match (a, b) {
        (Piece::Bytes(a), Piece::Bytes(b)) => a.as_slice() == b.as_slice(),
        (Piece::Hole(a), Piece::Hole(b)) => a == b,
        (Piece::Label, Piece::Label) => true,
        (Piece::Callee, Piece::Callee) => true,
        (Piece::Count, Piece::Count) => true,
        _ => false,
    }
}

// Whether the lines are the same, wherever they stand.
fn is_same_line(a: &Line, b: &Line) -> bool {
    let a = a.pieces.as_slice();
    let b = b.pieces.as_slice();
    a.len() == b.len() && a.iter().zip(b).all(|(a, b)| is_same_piece(a, b))
}

fn gives_same(a: &Give, b: &Give) -> bool {
    match (a, b) {
        (Give::Shape(a), Give::Shape(b)) => is_same_line(a, b),
        (Give::Fresh, Give::Fresh) => true,
        (Give::Reuse, Give::Reuse) => true,
        (Give::Scratch, Give::Scratch) => true,
        (Give::Nothing, Give::Nothing) => true,
        _ => false,
    }
}

fn is_same_rule(a: &Rule, b: &Rule) -> bool {
    let lines = a.lines.as_slice();
    a.left == b.left
        && a.right.as_slice() == b.right.as_slice()
        && a.restrictions.as_slice() == b.restrictions.as_slice()
        && lines.len() == b.lines.as_slice().len()
        && lines
            .iter()
            .zip(b.lines.as_slice())
            .all(|(a, b)| is_same_line(a, b))
        && gives_same(&a.give, &b.give)
}

fn agree_at(a: &Tables, b: &Tables, state: State) -> bool {
    let classes = u16::try_from(a.description().classes().len()).unwrap_or(u16::MAX);
    tokens()
        .iter()
        .all(|token| a.action(state, *token) == b.action(state, *token))
        && (0..classes).all(|class| a.go(state, class) == b.go(state, class))
}

// Whether the rules are the same, and what may be done and where classes lead at each state.
fn agree(a: &Tables, b: &Tables) -> bool {
    let rules = a.description().rules();
    let states = u16::try_from(a.states()).unwrap_or(u16::MAX);
    rules.len() == b.description().rules().len()
        && rules
            .iter()
            .zip(b.description().rules())
            .all(|(a, b)| is_same_rule(a, b))
        && a.states() == b.states()
        && (0..states).all(|number| agree_at(a, b, State::of(number)))
}

// The shipped description.
fn shipped() -> &'static str {
    VAX_GG
}

// The one of version 1.
fn first() -> &'static str {
    VAX1_GG
}

// How many rules and item sets both have, or that they differ.
fn put_agreement(a: &Tables, b: &Tables, told: &mut String) -> Result<(), NoMemory> {
    if agree(a, b) {
        let rules = a.description().rules().len();
        writeln!(told, "{rules} rules and {} item sets in both", a.states())?;
    } else {
        told.push_str("they differ\n")?;
    }
    Ok(())
}

// What the shipped tables have beside those of version 1.
fn put_beside_first(alloc: Global, a: &Tables, told: &mut String) -> Result<(), NoMemory> {
    match tables_of(alloc, first(), told)? {
        Some(b) => put_agreement(a, &b, told),
        None => Ok(()),
    }
}

/// Adds how many rules and item sets the shipped description and the one of version 1 both have, or that they differ.
pub fn put_comparison(alloc: Global, told: &mut String) -> Result<(), NoMemory> {
    told.push_str("  | ")?;
    match tables_of(alloc, shipped(), told)? {
        Some(a) => put_beside_first(alloc, &a, told),
        None => Ok(()),
    }
}
