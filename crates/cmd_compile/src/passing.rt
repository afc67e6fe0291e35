// How many changes passes have made, and the lines that tell how many they made in a call.
ghost use Rattle.std.specs.Prelude.{◌≡◌, IfOk, map, string_bytes};
ghost use Rattle.cmd_compile.specs.Lines.{pass_line, pass_lines};
ghost use Rattle.cmd_compile.specs.Passing.{rises};

use gg_base::{NoMemory, Text};
use std::alloc::Global;
use vax_passes::Pass;

// How many changes a pass has made so far.
fn changes_of(pass: &Box<dyn Pass>) -> u64
    ensures { result ≡ made pass.now }
{
    pass.changes()
}

/// How many changes each pass has made so far.
pub fn all_changes(alloc: Global, passes: &[Box<dyn Pass>]) -> Result<Vec<u64>, NoMemory>
    ensures { IfOk result (λ counts. counts.items ≡ map (λ p. made p) passes.now) }
{
    let mut counts = Vec::new(alloc);
    for pass in passes {
        counts.push(changes_of(pass))?;
    }
    Ok(counts)
}

// The line of a pass that made so many changes; passes count from 1.
fn pass_line(alloc: Global, number: usize, changes: u64) -> Result<String, NoMemory>
    ensures { IfOk result (λ line. string_bytes line ≡ pass_line number changes) }
{
    Ok(format!(in alloc; "pass {number}: {changes}\n")?)
}

// The lines of passes that had made so many changes before, and so many behind.
fn pass_lines(alloc: Global, before: &[u64], behind: &[u64]) -> Result<Text, NoMemory>
    ensures { IfOk result (λ lines. lines ≡ pass_lines 0 (rises before.now behind.now)) }
{
    let mut lines = Vec::new(alloc);
    let count = before.len().min(behind.len());
    for number in 0..count {
        let changes = behind[number].saturating_sub(before[number]);
        let line = pass_line(alloc, number + 1, changes)?;
        lines.extend_from_slice(line.as_bytes())?;
    }
    Ok(Text::from_vec(lines))
}

/// The lines of passes that had made so many changes before: the number of each, from 1, and how many it has made since.
pub fn changed_lines(
    alloc: Global,
    before: &[u64],
    passes: &[Box<dyn Pass>],
) -> Result<Text, NoMemory>
    ensures { IfOk result (λ lines. lines ≡ pass_lines 0 (rises before.now (map (λ p. made p) passes.now))) }
{
    let behind = all_changes(alloc, passes)?;
    pass_lines(alloc, before, &behind)
}
