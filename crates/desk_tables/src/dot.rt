// The item sets of a description as a graph, in the language of Graphviz.
use crate::drawing::{Drawing, START};
use gg_base::NoMemory;
use lr_tables::{Item, State, Tables};
use md_reader::Sym;
use std::alloc::{AllocError, Global};
use tree_core::tokens;

// The columns in front of an item, in a drawn kernel.
const FRONT: usize = 8;

// Each symbol that may lead from an item set: the tokens, `End` among them, and the classes.
fn symbols_of(alloc: Global, tables: &Tables) -> Result<Vec<Sym>, AllocError> {
    let mut symbols = Vec::new(alloc);
    for token in tokens() {
        symbols.push(Sym::Tok(*token))?;
    }
    let mut number: u16 = 0;
    for _ in tables.description().classes() {
        symbols.push(Sym::Class(number))?;
        number = number.saturating_add(1);
    }
    Ok(symbols)
}

// A node: the items of the kernel, a line each.
fn put_node(
    alloc: Global,
    told: &mut String,
    drawing: &Drawing,
    state: State,
    kernel: &[Item],
) -> Result<(), AllocError> {
    let number = state.number();
    let mut drawn = String::new(alloc);
    drawing.put_kernel(&mut drawn, state, kernel)?;
    write!(told, "  s{number} [label=\"{number}\\n")?;
    for line in drawn.lines() {
        told.push_str(line.get(FRONT..).unwrap_or(""))?;
        told.push_str("\\l")?;
    }
    told.push_str("\"];\n")
}

// The kernels that are known so far, by the numbers of their item sets.
type Kernels = Vec<Option<Vec<Item>>>;

// The edges from an item set; the kernels that they lead to are noted.
fn put_edges(
    told: &mut String,
    drawing: &Drawing,
    state: State,
    kernel: &[Item],
    symbols: &[Sym],
    kernels: &mut Kernels,
) -> Result<(), AllocError> {
    for symbol in symbols {
        if let Some(target) = drawing.tables.over(state, *symbol) {
            let name = drawing.name_of(*symbol);
            writeln!(
                told,
                "  s{} -> s{} [label=\"{name}\"];",
                state.number(),
                target.number()
            )?;
            if let Some(noted) = kernels.get_mut(target.number() as usize) {
                if noted.is_none() {
                    *noted = Some(drawing.moved(kernel, *symbol)?);
                }
            }
        }
    }
    Ok(())
}

fn first_kernels(alloc: Global, count: u16) -> Result<Kernels, AllocError> {
    let mut kernels = Vec::new(alloc);
    for number in 0..count {
        kernels.push(if number == 0 {
            Some(Vec::from_slice(alloc, &[START])?)
        } else {
            None
        })?;
    }
    Ok(kernels)
}

/// Adds the item sets as a graph: a node for each with its kernel, and an edge for each symbol that leads from one to another.
pub fn put_dot(alloc: Global, tables: &Tables, told: &mut String) -> Result<(), NoMemory> {
    let drawing = Drawing::new(alloc, tables);
    let count = u16::try_from(tables.states()).unwrap_or(u16::MAX);
    let symbols = symbols_of(alloc, tables)?;
    let mut kernels = first_kernels(alloc, count)?;
    told.push_str("digraph sets {\n  rankdir=LR;\n  node [shape=box, fontname=\"monospace\"];\n")?;
    for number in 0..count {
        let state = State::of(number);
        let kernel = match kernels.get(number as usize) {
            Some(Some(noted)) => Vec::from_slice(alloc, noted)?,
            _ => Vec::new(alloc),
        };
        put_node(alloc, told, &drawing, state, &kernel)?;
        put_edges(told, &drawing, state, &kernel, &symbols, &mut kernels)?;
    }
    told.push_str("}\n")?;
    Ok(())
}
