// Which trees of a function come of which statement.
//
// The trees of a source keep no places. So the statements of a function are taken out of its text one by one, from the last on, and the
// trees that are left are counted. So that each count is a statement's own, two things are done before. The zero that a declaration sets is
// left out where the local is assigned to first: all values are written out, and the zeros that this brings are taken off again. And each
// return of a function with memory locals gives their memory back: such a function has a memory local that is never taken out.
use crate::units::{Kind, Unit, body_of, push_bare_ends, start_of, take_out, units_of};
use c_lower::lower;
use c_typed::{SourceFault, read_source};
use desk_sources::left_out::Words;
use desk_sources::pieces::pieces;
use gg_base::NoMemory;
use std::alloc::{AllocError, Global};

/// The longest source whose statements are told apart.
pub const MOST_BYTES: usize = 65_536;

// A memory local that nothing uses. With it the function keeps its block where the declarations that want one are taken out.
const KEEPER: &[u8] = b"char desk_block[4];";

// How many items a function has, and whether it has memory locals.
#[derive(Clone, Copy)]
struct Counted {
    items: usize,
    has_block: bool,
}

impl Counted {
    // How many items take the block.
    fn begin(self) -> usize {
        if self.has_block { 5 } else { 0 }
    }

    // How many items give the block back and return at the function's end.
    fn end(self) -> usize {
        if self.has_block { 2 } else { 1 }
    }
}

// The items of a function in a text; None where the text is no source.
fn items_of(alloc: Global, text: &[u8], function: usize) -> Result<Option<Counted>, NoMemory> {
    if text.len() > MOST_BYTES {
        return Ok(None);
    }
    let program = match read_source(alloc, text) {
        Ok(program) => program,
        Err(SourceFault::NoMemory) => return Err(NoMemory),
        Err(SourceFault::At { .. }) => return Ok(None),
    };
    let trees = lower(alloc, &program)?;
    let routine = program.plain().routines.get(function);
    let lowered = trees.functions.as_slice().get(function);
    match (routine, lowered) {
        (Some(routine), Some(lowered)) => Ok(Some(Counted {
            items: lowered.items.as_slice().len(),
            has_block: routine.block > 0,
        })),
        _ => Ok(None),
    }
}

/// Which items of a function come of which statement.
#[derive(Drop)]
pub struct Parts {
    /// How many items, the first ones, take memory for the function's memory locals.
    pub begin: usize,
    /// For each statement or declaration the number of the first item that comes of it, or of what is behind it.
    pub firsts: Vec<usize>,
    /// How many items, the last ones, leave the function at its end.
    pub end: usize,
}

// The source with these words at the place, where there is one, and with `=0` behind each declarator without a value in these
// declarations.
fn valued(
    alloc: Global,
    words: Words,
    keeper: Option<usize>,
    units: &[Unit],
) -> Result<Vec<u8>, AllocError> {
    let mut ends = Vec::new(alloc);
    for unit in units {
        if unit.kind == Kind::Declaration {
            push_bare_ends(words, *unit, &mut ends)?;
        }
    }
    let mut text = Vec::new(alloc);
    let mut start = 0_usize;
    if let Some(place) = keeper {
        text.extend_from_slice(words.source.get(..place).unwrap_or(&[]))?;
        text.extend_from_slice(KEEPER)?;
        start = place;
    }
    for end in &ends {
        text.extend_from_slice(words.source.get(start..*end).unwrap_or(&[]))?;
        text.extend_from_slice(b"=0")?;
        start = *end;
    }
    text.extend_from_slice(words.source.get(start..).unwrap_or(&[]))?;
    Ok(text)
}

// How many items a function has without all of its statements but so many, but for the first of them, and so on up to all; None where that
// isn't found.
fn counts_of(
    alloc: Global,
    words: Words,
    name: &str,
    function: usize,
    kept: usize,
) -> Result<Option<Vec<usize>>, NoMemory> {
    let mut text = Vec::from_slice(alloc, words.source)?;
    let mut counts = Vec::new(alloc);
    match items_of(alloc, &text, function)? {
        Some(counted) => counts.push(counted.items)?,
        None => return Ok(None),
    }
    let units = units_of(alloc, words, name)?;
    for unit in units.get(kept..).unwrap_or(&[]).iter().rev() {
        take_out(text.as_mut_slice(), words, *unit);
        match items_of(alloc, &text, function)? {
            Some(counted) => counts.push(counted.items)?,
            None => return Ok(None),
        }
    }
    counts.reverse();
    Ok(Some(counts))
}

// How many zeros of a declaration are left out, of a function with so many items.
fn zeros_of(
    alloc: Global,
    words: Words,
    unit: Unit,
    function: usize,
    count: usize,
) -> Result<usize, NoMemory> {
    if unit.kind != Kind::Declaration {
        return Ok(0);
    }
    let text = valued(alloc, words, None, &[unit])?;
    match items_of(alloc, &text, function)? {
        Some(more) => Ok(more.items.saturating_sub(count)),
        None => Ok(0),
    }
}

// The items of a function from its text with all values written out, and with a block where it has one.
fn valued_counts(
    alloc: Global,
    words: Words,
    units: &[Unit],
    name: &str,
    function: usize,
    has_block: bool,
) -> Result<Option<Vec<usize>>, NoMemory> {
    let keeper = match body_of(words, name) {
        Some(body) => has_block.then_some(start_of(words, body)),
        None => None,
    };
    let text = valued(alloc, words, keeper, units)?;
    let found = pieces(alloc, &text)?;
    let written = Words {
        source: &text,
        pieces: &found,
    };
    let kept = if keeper.is_some() { 1 } else { 0 };
    counts_of(alloc, written, name, function, kept)
}

/// Which items of a function, with its number and its name, come of which statement; None where that isn't found.
pub fn parts_of(
    alloc: Global,
    words: Words,
    units: &[Unit],
    function: usize,
    name: &str,
) -> Result<Option<Parts>, NoMemory> {
    let Some(whole) = items_of(alloc, words.source, function)? else {
        return Ok(None);
    };
    let counts = valued_counts(alloc, words, units, name, function, whole.has_block)?;
    let Some(counts) = counts else {
        return Ok(None);
    };
    let none = counts.first().copied().unwrap_or(0);
    let mut firsts = Vec::new(alloc);
    let mut zeros = 0_usize;
    for (unit, before) in units.iter().zip(&counts) {
        let own = before.saturating_sub(none).saturating_sub(zeros);
        firsts.push(whole.begin().saturating_add(own))?;
        let more = zeros_of(alloc, words, *unit, function, whole.items)?;
        zeros = zeros.saturating_add(more);
    }
    Ok(Some(Parts {
        begin: whole.begin(),
        firsts,
        end: whole.end(),
    }))
}
