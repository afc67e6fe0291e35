// Rows of the subject `assembly`: texts, of which is written what `read_code` answers, how many items their data area and their code have
// and which of r0 to r11 their instructions use, or their first wrong line; and whether `write_code` gives the text back. A row is a text,
// in which ~ stands for a tab and | for a line feed; `operand A` is a text of one instruction with the operand A, and `line A` one of
// twelve lines, whose sixth is A.
use bitflags::Flags;
use gg_base::NoMemory;
use std::alloc::{AllocError, Global};
use vax_core::{Code, CodeItem};
use vax_reader::{AsmFault, read_code};
use vax_writer::write_code;

const HEAD: &str = "\t.data\n\t.text\n\t.globl\t_main\n_main:\n\t.word\t0\n";

const TAIL: &str =
    "\tcalls\t$1,_putchar\n\tpushl\t$105\n\tcalls\t$1,_putchar\n\tpushl\t$0\n\tmovl\t(sp)+,r0\n\tret\n";

fn unfolded(alloc: Global, row: &str) -> Result<String, AllocError> {
    row.chars()
        .map(|letter| match letter {
            '~' => '\t',
            '|' => '\n',
            other => other,
        })
        .collect(alloc)
}

fn text_of(alloc: Global, row: &str) -> Result<String, AllocError> {
    match row.split_once(' ') {
        Some(("operand", operand)) => { format!(in alloc; "\t.data\n\t.text\n\ttstl\t{operand}\n") }
        Some(("line", line)) => {
            let line = unfolded(alloc, line)?;
            format!(in alloc; "{HEAD}{line}\n{TAIL}")
        }
        _ => unfolded(alloc, row),
    }
}

// The registers that the instructions use, bit n for rn.
fn used(code: &Code) -> u16 {
    let mut all = 0;
    for item in code.items.as_slice() {
        if let CodeItem::Instr(instr) = item {
            all |= instr.registers().bits();
        }
    }
    all
}

// Whether the code is written as it was read.
fn is_given_back(alloc: Global, code: &Code, text: &str) -> Result<bool, NoMemory> {
    if !code.valid() {
        return Ok(false);
    }
    let mut written = String::new(alloc);
    write_code(code, &mut written)?;
    Ok(written.as_str() == text)
}

fn put_code(alloc: Global, code: &Code, text: &str, told: &mut String) -> Result<(), NoMemory> {
    let area = code.area.as_slice().len();
    let items = code.items.as_slice().len();
    write!(told, "{area} and {items} items, ")?;
    if is_given_back(alloc, code, text)? {
        writeln!(told, "registers {:#x}", used(code))?;
    } else {
        told.push_str("written otherwise\n")?;
    }
    Ok(())
}

fn answer_row(alloc: Global, row: &str, told: &mut String) -> Result<(), NoMemory> {
    write!(told, "{row} -> ")?;
    let text = text_of(alloc, row)?;
    match read_code(alloc, text.as_bytes()) {
        Ok(code) => put_code(alloc, &code, text.as_str(), told),
        Err(AsmFault::Line { line, kind }) => Ok(writeln!(told, "line {line}: {kind:?}")?),
        Err(AsmFault::NoMemory) => Err(NoMemory),
    }
}

/// Adds each row with what is said of its text.
pub fn answer_assembly(alloc: Global, rows: &str, told: &mut String) -> Result<(), NoMemory> {
    for row in rows.lines() {
        answer_row(alloc, row, told)?;
    }
    Ok(())
}
