// Texts around one instruction.
use crate::running::{Outcome, run};
use gg_base::End;
use std::alloc::{AllocError, Global};

const HEAD: &str = ".data|.text|_main:|.word 0";

// Writes the codes in two letters, of which the first is N, Z, `-` for neither or `?` for both, and the second C or `-`; ends with r2.
const TELL: &str = "\
jlss L1|jeql L2|movl $45,r3|jbr L4|\
L1:|jeql L3|movl $78,r3|jbr L4|\
L2:|movl $90,r3|jbr L4|\
L3:|movl $63,r3|\
L4:|jlssu L5|movl $45,r4|jbr L6|\
L5:|movl $67,r4|\
L6:|pushl r3|calls $1,_putchar|pushl r4|calls $1,_putchar|movl r2,r0|ret";

// Settings of the codes, each with instructions that leave it. No instruction sets N and Z together.
static CODES: [(&str, &str); 6] = [
    ("none", "cmpl $1,$0"),
    ("C", "cmpl $1,$-1"),
    ("Z", "cmpl $0,$0"),
    ("ZC", "cmpl $1,$-1|clrl r0"),
    ("N", "cmpl $-1,$1"),
    ("NC", "cmpl $0,$1"),
];

// The data area of `mode`: _a is 65,536, _p 65,548 and points to 20, and _b is 65,552.
const AREA: &str = "\
.data|_a:|.long 10|.long 20|.long 30|_p:|.long _a+4|\
_b:|.byte 1|.byte 254|.word 65534|.align 2|.long 3|.text|_main:|.word 0";

// The number that a word in hexadecimal stands for, as an operand.
fn number(alloc: Global, word: &str) -> Result<String, AllocError> {
    let n = u32::from_str_radix(word, 16).unwrap_or(0);
    format!(in alloc; "${}", n.cast_signed())
}

/// What an instruction leaves in r2 and in the codes.
pub fn instruction(alloc: Global, row: &str) -> Result<String, AllocError> {
    let mut words = row.splitn(4, ' ');
    let (Some(first), Some(second), Some(carry), Some(instruction)) = (
        words.next(),
        words.next(),
        words.next(),
        words.next(),
    ) else {
        return String::from_str(alloc, "no row");
    };
    let first = number(alloc, first)?;
    let second = number(alloc, second)?;
    let codes = if carry == "C" {
        "cmpl $0,$1"
    } else {
        "cmpl $0,$0"
    };
    let text = format!(in alloc;
        "{HEAD}|movl {first},r1|movl {second},r2|{codes}|{instruction}|{TELL}"
    )?;
    match run(alloc, text.as_str(), 100, "")? {
        Outcome::Ran(End::Ended(value), codes) => {
            let codes = String::from_utf8_lossy(alloc, codes.as_slice())?;
            format!(in alloc; "{value:08x} {codes}")
        }
        _ => String::from_str(alloc, "no end"),
    }
}

/// With which codes a branch is taken.
pub fn branch(alloc: Global, branch: &str) -> Result<String, AllocError> {
    let mut told = String::new(alloc);
    for (name, codes) in &CODES {
        let text = format!(in alloc; "{HEAD}|{codes}|{branch} L1|clrl r0|ret|L1:|movl $1,r0|ret")?;
        if let Outcome::Ran(End::Ended(1), _) = run(alloc, text.as_str(), 100, "")? {
            if !told.is_empty() {
                told.push(' ')?;
            }
            told.push_str(name)?;
        }
    }
    Ok(told)
}

// What a register holds behind an operation.
fn held(alloc: Global, operation: &str, register: &str) -> Result<String, AllocError> {
    let text = format!(in alloc;
        "{AREA}|movl $65536,r3|movl $65548,r4|movl $2,r5|{operation},r0|movl {register},r0|ret"
    )?;
    match run(alloc, text.as_str(), 100, "")? {
        Outcome::Ran(End::Ended(value), _) => format!(in alloc; "{value}"),
        _ => String::from_str(alloc, "no end"),
    }
}

/// What an operation reads by an operand, and what it leaves in r3 and r4.
pub fn mode(alloc: Global, operation: &str) -> Result<String, AllocError> {
    let read = held(alloc, operation, "r0")?;
    let third = held(alloc, operation, "r3")?;
    let fourth = held(alloc, operation, "r4")?;
    format!(in alloc; "{read}, r3 {third}, r4 {fourth}")
}
