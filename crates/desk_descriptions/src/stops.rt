// The tree that stops the parse of a description, and where.
use desk_page::advice::TABLES;
use desk_page::{put_advice, put_wrapped};
use desk_sets::{Word, put_stop};
use gg_base::NoMemory;
use lr_check::Sample;
use lr_checked::{CheckFault, check};
use lr_tables::Tables;
use std::alloc::{AllocError, Global};

// The most tokens of a tree that is drawn.
const MOST_WORDS: usize = 10_000;

// A node's token, and its answers.
fn word_of(alloc: Global, sample: &Sample, node: u32) -> Result<Option<Word>, AllocError> {
    let Some(node) = sample.nodes().get(node as usize) else {
        return Ok(None);
    };
    Ok(Some(Word {
        token: node.tok(),
        answers: Some(Vec::from_slice(alloc, node.answers())?),
        asked: 0,
    }))
}

// The kids of a node go on the stack, the first on top.
fn open(sample: &Sample, node: u32, open: &mut Vec<u32>) -> Result<(), AllocError> {
    if let Some(node) = sample.nodes().get(node as usize) {
        for kid in node.kids().iter().rev() {
            open.push(*kid)?;
        }
    }
    Ok(())
}

// The tokens of a sample's tree in prefix order, each with its answers; None of too large a tree.
fn words_of(alloc: Global, sample: &Sample) -> Result<Option<Vec<Word>>, AllocError> {
    let mut words = Vec::new(alloc);
    let mut left = Vec::new(alloc);
    let root = sample.nodes().len().saturating_sub(1);
    left.push(u32::try_from(root).unwrap_or(0))?;
    for _ in 0..MOST_WORDS {
        let Some(node) = left.pop() else {
            return Ok(Some(words));
        };
        if let Some(word) = word_of(alloc, sample, node)? {
            words.push(word)?;
        }
        open(sample, node, &mut left)?;
    }
    Ok(None)
}

// The tree in one line, as `ggdesk parse` reads it: answers stand behind a `=`.
fn put_tree(told: &mut String, words: &[Word]) -> Result<(), AllocError> {
    for word in words {
        told.push(' ')?;
        told.push_str(word.token.name())?;
        if let Some(answers) = &word.answers {
            if !answers.is_empty() {
                told.push('=')?;
                for answer in answers {
                    told.push(if *answer { 'y' } else { 'n' })?;
                }
            }
        }
    }
    Ok(())
}

// The tree, and the stack where its parse stops.
fn put_sample(
    alloc: Global,
    name: &str,
    kind: &str,
    tables: &Tables,
    sample: &Sample,
    told: &mut String,
) -> Result<(), NoMemory> {
    let Some(words) = words_of(alloc, sample)? else {
        writeln!(told, "{name}: {kind}; the tree is too large to be drawn")?;
        return put_advice(told, &TABLES, kind);
    };
    let mut line = format!(in alloc; "{name}: {kind}:")?;
    put_tree(&mut line, &words)?;
    put_wrapped(told, &line, "    ")?;
    put_stop(alloc, tables, words, told)?;
    put_advice(told, &TABLES, kind)
}

/// Adds the tree that stops the parse by these tables, if there is one, and where it stops.
pub fn put_stops(
    alloc: Global,
    name: &str,
    tables: Tables,
    told: &mut String,
) -> Result<(), NoMemory> {
    match check(alloc, tables) {
        Ok(_) => Ok(()),
        Err((tables, fault)) => match &fault {
            CheckFault::NoMemory => Err(NoMemory),
            CheckFault::CheckFull => {
                writeln!(told, "{name}: more than 4000000 summaries")?;
                put_advice(told, &TABLES, "summaries")
            }
            CheckFault::Blocks(sample) => put_sample(alloc, name, "blocks", &tables, sample, told),
            CheckFault::Loops(sample) => put_sample(alloc, name, "loops", &tables, sample, told),
        },
    }
}
