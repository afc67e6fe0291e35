// Words of rows: terms as they are written, `Add(K-1,Mem(b,V2))`.
use gg_base::{NoMemory, Size};
use std::alloc::Global;
use term_core::{BinaryOp, Term, UnaryOp, binary, put_term, unary};

static UNARY: [(&str, UnaryOp); 6] = [
    ("Neg", UnaryOp::Neg),
    ("Com", UnaryOp::Com),
    ("Zx8", UnaryOp::Zx8),
    ("Zx16", UnaryOp::Zx16),
    ("Sx8", UnaryOp::Sx8),
    ("Sx16", UnaryOp::Sx16),
];

static BINARY: [(&str, BinaryOp); 8] = [
    ("Add", BinaryOp::Add),
    ("Sub", BinaryOp::Sub),
    ("Mul", BinaryOp::Mul),
    ("Div", BinaryOp::Div),
    ("And", BinaryOp::And),
    ("Or", BinaryOp::Or),
    ("Xor", BinaryOp::Xor),
    ("Ash", BinaryOp::Ash),
];

static SIZES: [(&str, Size); 3] = [("b", Size::Byte), ("w", Size::Word), ("l", Size::Long)];

fn unary_named(word: &str) -> Option<UnaryOp> {
    UNARY
        .iter()
        .find_map(|(name, op)| (*name == word).then_some(*op))
}

fn binary_named(word: &str) -> Option<BinaryOp> {
    BINARY
        .iter()
        .find_map(|(name, op)| (*name == word).then_some(*op))
}

fn size_named(word: &str) -> Option<Size> {
    SIZES
        .iter()
        .find_map(|(name, size)| (*name == word).then_some(*size))
}

fn leaf_named(word: &str) -> Term {
    if let Some(digits) = word.strip_prefix("K") {
        return Term::K(digits.parse::<i32>().unwrap_or(0).cast_unsigned());
    }
    if let Some(digits) = word.strip_prefix("V") {
        return Term::V(digits.parse::<u8>().unwrap_or(0));
    }
    Term::Res
}

fn pop(stack: &mut Vec<Term>) -> Term {
    stack.pop().unwrap_or(Term::Res)
}

// What a word makes of the terms on the stack; a size stands in front of the address.
fn made(alloc: Global, word: &str, size: Size, stack: &mut Vec<Term>) -> Result<Term, NoMemory> {
    if let Some(op) = unary_named(word) {
        return unary(alloc, op, pop(stack));
    }
    if let Some(op) = binary_named(word) {
        let a = pop(stack);
        let b = pop(stack);
        return binary(alloc, op, a, b);
    }
    if word == "Mem" {
        return Ok(Term::Mem(size, Box::new(alloc, pop(stack))?));
    }
    Ok(leaf_named(word))
}

/// The term that is so written. Its words are read from the last to the first, so that each operator finds its parts on the stack.
pub fn read_term(alloc: Global, text: &str) -> Result<Term, NoMemory> {
    let mut stack = Vec::new(alloc);
    let mut size = Size::Long;
    for word in text.rsplit(['(', ',', ')']) {
        if let Some(named) = size_named(word) {
            size = named;
        } else if !word.is_empty() {
            let t = made(alloc, word, size, &mut stack)?;
            stack.push(t)?;
        }
    }
    Ok(pop(&mut stack))
}

/// Adds the term's text.
pub fn put_words(alloc: Global, told: &mut String, t: &Term) -> Result<(), NoMemory> {
    let mut text = Vec::new(alloc);
    put_term(&mut text, t)?;
    put_bytes(told, text.as_slice())
}

/// Adds the bytes, each as the character of its number.
pub fn put_bytes(told: &mut String, bytes: &[u8]) -> Result<(), NoMemory> {
    told.extend(bytes.iter().map(|byte| char::from(*byte)))?;
    Ok(())
}
