// The lines of a sample.
ghost use Rattle.std.specs.Prelude.{◌≡◌, ◌++◌, OnOk, IfOk};
ghost use Rattle.std.specs.List.{flat_map};
ghost use Rattle.std.specs.Fmt.{decimal};
ghost use Rattle.lr_checked.specs.Lines.{kid_word, answer_letter, answer_word, node_line, lines_from, sample_lines};

use gg_base::{NoMemory, Text, put_decimal};
use lr_check::{Sample, SampleNode};
use std::alloc::{AllocError, Global};

fn put_kid(into: &mut Vec<u8>, kid: u32) -> Result<(), AllocError>
    ensures { OnOk result (into.new.items ≡ into.old.items ++ kid_word kid) }
{
    into.push(b' ')?;
    put_decimal(into, u64::from(kid))
}

fn put_kids(into: &mut Vec<u8>, kids: &[u32]) -> Result<(), AllocError>
    ensures { OnOk result (into.new.items ≡ into.old.items ++ flat_map kid_word kids.now) }
{
    for kid in kids {
        put_kid(into, *kid)?;
    }
    Ok(())
}

fn put_letter(into: &mut Vec<u8>, answer: bool) -> Result<(), AllocError>
    ensures { OnOk result (into.new.items ≡ into.old.items ++ answer_letter answer) }
{
    if answer {
        into.push(b'y')?;
        return Ok(());
    }
    into.push(b'n')?;
    Ok(())
}

fn put_letters(into: &mut Vec<u8>, answers: &[bool]) -> Result<(), AllocError>
    ensures { OnOk result (into.new.items ≡ into.old.items ++ flat_map answer_letter answers.now) }
{
    for answer in answers {
        put_letter(into, *answer)?;
    }
    Ok(())
}

fn put_answers(into: &mut Vec<u8>, answers: &[bool]) -> Result<(), AllocError>
    ensures { OnOk result (into.new.items ≡ into.old.items ++ answer_word answers.now) }
{
    if answers.is_empty() {
        return Ok(());
    }
    into.push(b' ')?;
    put_letters(into, answers)
}

fn put_node(into: &mut Vec<u8>, number: usize, node: &SampleNode) -> Result<(), AllocError>
    ensures { OnOk result (into.new.items ≡ into.old.items ++ node_line number node.now) }
{
    into.extend_from_slice(b"  ")?;
    put_decimal(into, number as u64)?;
    into.push(b' ')?;
    into.extend_from_slice(node.tok().name().as_bytes())?;
    put_kids(into, node.kids())?;
    put_answers(into, node.answers())?;
    into.push(b'\n')?;
    Ok(())
}

fn put_nodes(into: &mut Vec<u8>, nodes: &[SampleNode]) -> Result<(), AllocError>
    ensures { OnOk result (into.new.items ≡ into.old.items ++ lines_from 0 nodes.now) }
{
    for (number, node) in nodes.iter().enumerate() {
        put_node(into, number, node)?;
    }
    Ok(())
}

/// A line for each node of the sample: two blanks, its number from 0, its token, the numbers of its kids,
/// and, where its questions are answered, a letter for each answer, `y` or `n`.
pub fn sample_lines(alloc: Global, sample: &Sample) -> Result<Text, NoMemory>
    ensures { IfOk result (λ text. text ≡ sample_lines sample.now) }
{
    let mut text = Vec::new(alloc);
    put_nodes(&mut text, sample.nodes())?;
    Ok(Text::from_vec(text))
}
