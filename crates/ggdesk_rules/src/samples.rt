// Trees that are written as the lines of a sample.
use desk_tables::token_named;
use lr_check::{Sample, SampleNode};
use std::alloc::{AllocError, Global};

// The node of a line: its number, its token, the numbers of its kids, and a letter for each answer, `y` or `n`.
fn node_of(alloc: Global, line: &str) -> Result<Option<SampleNode>, AllocError> {
    let mut token = None;
    let mut kids = Vec::new(alloc);
    let mut answers = Vec::new(alloc);
    for word in line.trim().split(' ').skip(1) {
        if let Ok(kid) = word.parse::<u32>() {
            kids.push(kid)?;
        } else if let Some(named) = token_named(word) {
            token = Some(named);
        } else {
            answers.extend(word.chars().map(|letter| letter == 'y'))?;
        }
    }
    match token {
        Some(token) => Ok(Some(SampleNode::new(token, kids, answers))),
        None => Ok(None),
    }
}

/// The tree of these lines; a line without a token is none of its nodes.
pub fn sample_of(alloc: Global, lines: &str) -> Result<Sample, AllocError> {
    let mut nodes = Vec::new(alloc);
    for line in lines.lines() {
        if let Some(node) = node_of(alloc, line)? {
            nodes.push(node)?;
        }
    }
    Ok(Sample::new(nodes))
}
