// Rows of the subject `passes`: lists of passes over assembly texts. A row is a list of passes, joined by +, a blank and a text, in which ~
// stands for a tab and | for a line feed, without its first two lines; `again` in front has the list run over what it gave. Each row is
// written with the text that the passes lead to and the number of changes of each; or with `no memory` and these numbers. Besides `next`,
// `dead`, `chain` and `test` there are `once`, which is `next` at its first call alone, and `refuse`, which gives the code back, but finds
// no memory at its second call.
ghost use Rattle.std.specs.Prelude.{◌≡◌, true, IfSome};
ghost use Rattle.vax_core.specs.Valid.{is_code};

use crate::own::{Once, Refuse};
use gg_base::NoMemory;
use std::alloc::{AllocError, Global};
use vax_codes::{JumpChain, NeedlessTest};
use vax_core::Code;
use vax_passes::{DeadTail, NextJump, Pass, run_passes};
use vax_reader::read_code;
use vax_writer::write_code;

const HEAD: &str = "\t.data\n\t.text\n";

// The code of a row's text.
fn read(alloc: Global, row: &str) -> Option<Code>
    ensures { IfSome result (λ code. is_code code ≡ true) }
{
    let lines: Result<String, AllocError> = row
        .chars()
        .map(|letter| match letter {
            '~' => '\t',
            '|' => '\n',
            other => other,
        })
        .collect(alloc);
    let lines = lines.ok()?;
    let text = format!(in alloc; "{HEAD}{lines}").ok()?;
    let code = read_code(alloc, text.as_bytes()).ok()?;
    if code.valid() { Some(code) } else { None }
}

fn written(alloc: Global, code: &Code) -> Result<String, NoMemory> {
    if !code.valid() {
        return Ok(String::from_str(alloc, "not valid")?);
    }
    let mut text = String::new(alloc);
    write_code(code, &mut text)?;
    let lines = text.as_str().strip_prefix(HEAD).unwrap_or(text.as_str());
    let shown: String = lines
        .chars()
        .map(|letter| match letter {
            '\t' => '~',
            '\n' => '|',
            other => other,
        })
        .collect(alloc)?;
    Ok(shown)
}

// The text to which the passes lead from a text, called once or twice.
fn passed(
    alloc: Global,
    passes: &mut Vec<Box<dyn Pass>>,
    again: bool,
    text: &str,
) -> Result<String, NoMemory> {
    let Some(code) = read(alloc, text) else {
        return Ok(String::from_str(alloc, "no code")?);
    };
    let code = run_passes(passes, code)?;
    if !again {
        return written(alloc, &code);
    }
    let code = run_passes(passes, code)?;
    written(alloc, &code)
}

// Adds what the passes of these names make of a text: the text to which they lead, and how many changes each has made.
fn put_passed(
    alloc: Global,
    names: &str,
    again: bool,
    text: &str,
    told: &mut String,
) -> Result<(), NoMemory> {
    let mut passes: Vec<Box<dyn Pass>> = Vec::new(alloc);
    for name in names.split('+') {
        match name {
            "next" => passes.push(Box::new(alloc, NextJump::new(alloc))?)?,
            "dead" => passes.push(Box::new(alloc, DeadTail::new(alloc))?)?,
            "test" => passes.push(Box::new(alloc, NeedlessTest::new(alloc))?)?,
            "chain" => passes.push(Box::new(alloc, JumpChain::new(alloc))?)?,
            "once" => passes.push(Box::new(alloc, Once::new(NextJump::new(alloc)))?)?,
            "refuse" => passes.push(Box::new(alloc, Refuse::new())?)?,
            _ => {}
        }
    }
    match passed(alloc, &mut passes, again, text) {
        Ok(text) => told.push_str(&text)?,
        Err(NoMemory) => told.push_str("no memory")?,
    }
    for pass in &passes {
        write!(told, " {}", pass.changes())?;
    }
    Ok(())
}

fn answer_row(alloc: Global, row: &str, told: &mut String) -> Result<(), NoMemory> {
    write!(told, "{row} -> ")?;
    let (again, list) = match row.strip_prefix("again ") {
        Some(list) => (true, list),
        None => (false, row),
    };
    match list.split_once(' ') {
        Some((names, text)) => put_passed(alloc, names, again, text, told)?,
        None => told.push_str("no row")?,
    }
    told.push('\n')?;
    Ok(())
}

/// Adds to what is told each row with its answer.
pub fn answer_passes(alloc: Global, rows: &str, told: &mut String) -> Result<(), NoMemory> {
    for row in rows.lines() {
        answer_row(alloc, row, told)?;
    }
    Ok(())
}
