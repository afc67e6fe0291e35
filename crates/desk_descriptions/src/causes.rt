// Which of its causes a `NotInstr` most likely has, by what the line says.
use gg_base::NoMemory;
use md_reader::{Class, Give, Kind, Line, Piece, Rule};
use std::alloc::Global;
use vax_core::{Access, Op};
use vax_target_forms::instruction::{LineInstruction, instruction_of};
use vax_target_forms::refusal::Refusal;

/// What a line is refused for as no instruction that may stand there.
#[derive(Clone, Copy)]
pub enum Cause {
    /// No instruction is called so.
    Mnemonic,
    /// An operand may not be spelled so.
    Operand,
    /// What is read is dropped.
    Dropped,
    /// `%0` is read before it is written.
    Unwritten,
    /// Something else than `%0` is written, and the rule is no statement's.
    Writes,
    /// The line stands behind the one that ends the statement.
    Behind,
    /// A branch stands without its comparison.
    Branch,
    /// `%0` is left without a value.
    NoValue,
    /// The statement's rule does nothing.
    Nothing,
}

impl Cause {
    /// Its name in the table of sentences.
    pub fn name(self) -> &'static str {
        match self {
            Cause::Mnemonic => "mnemonic",
            Cause::Operand => "operand",
            Cause::Dropped => "dropped",
            Cause::Unwritten => "unwritten",
            Cause::Writes => "writes",
            Cause::Behind => "behind",
            Cause::Branch => "branch",
            Cause::NoValue => "no value",
            Cause::Nothing => "nothing",
        }
    }
}

// Whether the rule is a statement's.
fn is_statement(rule: &Rule, classes: &[Class]) -> bool {
    match classes.get(rule.left as usize) {
        Some(class) => class.kind == Kind::Nothing,
        None => false,
    }
}

// Whether a line ends with `%0` as an operand by itself: it writes it, if it writes anything.
fn ends_with_zero(line: &Line) -> bool {
    match line.pieces.as_slice() {
        [.., Piece::Bytes(before), Piece::Hole(0)] => before.as_slice().ends_with(b",")
            || before.as_slice().ends_with(b" "),
        _ => false,
    }
}

// Whether `%0` stands in a line elsewhere than at its end.
fn reads_zero(line: &Line) -> bool {
    let pieces = line.pieces.as_slice();
    let count = pieces
        .iter()
        .filter(|piece| matches!(piece, Piece::Hole(0)))
        .count();
    let at_end = if ends_with_zero(line) { 1 } else { 0 };
    count > at_end
}

// Whether a line of this number stands in front of it and ends with `%0`.
fn is_written(rule: &Rule, number: u32) -> bool {
    rule.lines
        .as_slice()
        .iter()
        .any(|line| line.line < number && ends_with_zero(line))
}

// The instruction that a line begins with.
fn op_of(line: &Line) -> Option<Op> {
    let [Piece::Bytes(bytes), ..] = line.pieces.as_slice() else {
        return None;
    };
    Op::from_mnemonic(bytes.as_slice().split(|byte| *byte == b' ').next()?)
}

// Whether the line's last operand is read, and whether it is written.
#[derive(Clone, Copy)]
struct Last {
    is_read: bool,
    is_written: bool,
}

fn last_of(line: &Line) -> Last {
    let access = match op_of(line) {
        Some(op) => match op.shape().operands {
            [.., last] => last.access,
            [] => Access::Count,
        },
        None => Access::Count,
    };
    Last {
        is_read: matches!(access, Access::Read | Access::Modify | Access::Address),
        is_written: matches!(access, Access::Write | Access::Modify),
    }
}

// The cause in a rule of a statement: at its first line, and behind it.
fn cause_in_statement(rule: &Rule, line: &Line, last: Last) -> Cause {
    let is_first = rule
        .lines
        .as_slice()
        .iter()
        .all(|other| line.line <= other.line);
    if !is_first {
        return Cause::Behind;
    }
    if last.is_written && matches!(line.pieces.as_slice(), [.., Piece::Hole(_)]) {
        return Cause::Operand;
    }
    Cause::Nothing
}

// The cause at a line that is an instruction.
fn cause_of_instruction(rule: &Rule, classes: &[Class], line: &Line) -> Cause {
    let last = last_of(line);
    let zero_last = ends_with_zero(line);
    let was_written = is_written(rule, line.line);
    if (reads_zero(line) || (zero_last && last.is_read)) && !was_written {
        return Cause::Unwritten;
    }
    if is_statement(rule, classes) {
        return cause_in_statement(rule, line, last);
    }
    if last.is_written {
        return if zero_last {
            Cause::Operand
        } else {
            Cause::Writes
        };
    }
    let is_end = match rule.lines.as_slice() {
        [.., end] => end.line == line.line,
        [] => true,
    };
    if is_end && !was_written && matches!(rule.give, Give::Fresh | Give::Reuse) {
        Cause::NoValue
    } else {
        Cause::Dropped
    }
}

// The cause at a line.
fn cause_at(alloc: Global, rule: &Rule, classes: &[Class], line: &Line) -> Result<Cause, NoMemory> {
    match instruction_of(alloc, line.pieces.as_slice()) {
        Ok(LineInstruction::Relation(_)) => Ok(Cause::Branch),
        Ok(_) => Ok(cause_of_instruction(rule, classes, line)),
        Err(Refusal::NoMemory) => Err(NoMemory),
        Err(Refusal::Wrong(_)) => Ok(if op_of(line).is_some() {
            Cause::Operand
        } else {
            Cause::Mnemonic
        }),
    }
}

/// The most likely cause of a `NotInstr` in a rule at a line of the description.
pub fn cause_of(
    alloc: Global,
    rule: &Rule,
    classes: &[Class],
    number: u32,
) -> Result<Cause, NoMemory> {
    let found = rule
        .lines
        .as_slice()
        .iter()
        .find(|line| line.line == number);
    match found {
        Some(line) => cause_at(alloc, rule, classes, line),
        None => Ok(match rule.give {
            Give::Shape(_) => Cause::Operand,
            Give::Fresh | Give::Reuse => Cause::NoValue,
            Give::Scratch | Give::Nothing => Cause::Nothing,
        }),
    }
}
