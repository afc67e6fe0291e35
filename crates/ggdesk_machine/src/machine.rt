// Rows of the subject `machine`: texts on the machine. In a text `|` stands for a line feed and a blank for a tab, and each line but a
// label's begins with a tab. A row is one of these, and is written with what the machine does:
//
// `run TEXT@N@INPUT`: what the text's run on this input writes within N instructions, a bar, and how it stands then; or why the text
//   can't be run.
// `with R1 R2 C INSTRUCTION`: what r2 holds behind an instruction, and the codes; r1, r2 and whether C is set are given, all numbers
//   in hexadecimal.
// `taken BRANCH`: with which codes a branch is taken.
// `under CODES BRANCH`: whether a branch is taken under the codes; of N, Z and C those stand that are set, and `-` where none is.
// `mode OPERATION OPERAND`: what an operation reads by an operand, and what r3 and r4 hold behind it. Before it they hold 65,536 and
//   65,548, and r5 holds 2.
use crate::running::told_of;
use crate::templates::{branch, instruction, mode};
use gg_base::NoMemory;
use std::alloc::{AllocError, Global};
use vax_core::Op;
use vax_machine::function::{Action, Conditions, action_of};

fn run(alloc: Global, row: &str) -> Result<String, AllocError> {
    let mut parts = row.split('@');
    let (Some(text), Some(count), Some(input)) = (parts.next(), parts.next(), parts.next()) else {
        return String::from_str(alloc, "no row");
    };
    match count.parse::<u64>() {
        Ok(count) => told_of(alloc, text, count, input),
        Err(_) => String::from_str(alloc, "no number"),
    }
}

fn is_taken(mnemonic: &str, conditions: Conditions) -> Option<bool> {
    match action_of(Op::from_mnemonic(mnemonic.as_bytes())?) {
        Action::Branch(test) => Some(test.passes(conditions)),
        _ => None,
    }
}

// Whether a branch is taken under the codes that a word names, also under those that no instruction leaves.
fn under(alloc: Global, row: &str) -> Result<String, AllocError> {
    let (codes, mnemonic) = row.split_once(' ').unwrap_or(("", row));
    let conditions = Conditions {
        negative: codes.contains('N'),
        is_zero: codes.contains('Z'),
        carry: codes.contains('C'),
    };
    let told = match is_taken(mnemonic, conditions) {
        Some(true) => "taken",
        Some(false) => "not taken",
        None => "no branch",
    };
    String::from_str(alloc, told)
}

fn answer(alloc: Global, row: &str) -> Result<String, AllocError> {
    match row.split_once(' ') {
        Some(("run", row)) => run(alloc, row),
        Some(("with", row)) => instruction(alloc, row),
        Some(("taken", row)) => branch(alloc, row),
        Some(("under", row)) => under(alloc, row),
        Some(("mode", row)) => mode(alloc, row),
        _ => String::from_str(alloc, "no row"),
    }
}

/// Adds each row with what the machine does.
pub fn answer_machine(alloc: Global, rows: &str, told: &mut String) -> Result<(), NoMemory> {
    for row in rows.lines() {
        let answer = answer(alloc, row)?;
        writeln!(told, "{row} -> {answer}")?;
    }
    Ok(())
}
