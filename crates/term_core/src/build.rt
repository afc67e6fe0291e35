// Each operator builds a normal term of normal parts, by the first equation that fits.

ghost use Rattle.std.specs.Prelude.{◌≡◌, IfOk};
ghost use Rattle.term_core.specs.Shape.{shape_of, Constant};
ghost use Rattle.term_core.specs.NormUnary.{make_neg, make_com, make_zx8, make_zx16, make_sx8, make_sx16, make_unary};
ghost use Rattle.term_core.specs.NormBinary.{add_constant, add_ordered, make_add, make_sub, mul_ordered, make_mul};
ghost use Rattle.term_core.specs.NormBinary.{make_div, is_count_symbol, masks_nothing, and_ordered, make_and};
ghost use Rattle.term_core.specs.NormBinary.{or_ordered, make_or, xor_ordered, make_xor, make_ash, make_binary};

use crate::construct::{binary, unary};
use crate::facts::{Fact, has_size, is_count};
use crate::operator::{BinaryOp, UnaryOp};
use crate::order::compare;
use crate::term::Term;
use gg_base::{NoMemory, Size};
use std::alloc::Global;
use std::cmp::Ordering;

/// Of the operator and its normal part.
pub fn make_unary(alloc: Global, facts: &[Fact], op: UnaryOp, t: Term) -> Result<Term, NoMemory>
    ensures { IfOk result (λ r. shape_of r ≡ make_unary facts.now op (shape_of t)) }
{
    match op {
        UnaryOp::Neg => make_neg(alloc, t),
        UnaryOp::Com => make_com(alloc, t),
        UnaryOp::Zx8 => make_zx8(alloc, facts, t),
        UnaryOp::Zx16 => make_zx16(alloc, facts, t),
        UnaryOp::Sx8 => make_sx8(alloc, t),
        UnaryOp::Sx16 => make_sx16(alloc, t),
    }
}

/// Of the operator and its two normal parts.
pub fn make_binary(
    alloc: Global,
    facts: &[Fact],
    op: BinaryOp,
    a: Term,
    b: Term,
) -> Result<Term, NoMemory>
    ensures { IfOk result (λ r. shape_of r ≡ make_binary facts.now op (shape_of a) (shape_of b)) }
{
    match op {
        BinaryOp::Add => make_add(alloc, a, b),
        BinaryOp::Sub => make_sub(alloc, a, b),
        BinaryOp::Mul => make_mul(alloc, a, b),
        BinaryOp::Div => make_div(alloc, a, b),
        BinaryOp::And => make_and(alloc, facts, a, b),
        BinaryOp::Or => make_or(alloc, a, b),
        BinaryOp::Xor => make_xor(alloc, a, b),
        BinaryOp::Ash => make_ash(alloc, a, b),
    }
}

fn make_neg(alloc: Global, t: Term) -> Result<Term, NoMemory>
    ensures { IfOk result (λ r. shape_of r ≡ make_neg (shape_of t)) }
{
    match t {
        Term::K(n) => Ok(Term::K(UnaryOp::Neg.apply(n))),
        Term::Unary(UnaryOp::Neg, t) => Ok(Box::into_inner(t)),
        t => unary(alloc, UnaryOp::Neg, t),
    }
}

fn make_com(alloc: Global, t: Term) -> Result<Term, NoMemory>
    ensures { IfOk result (λ r. shape_of r ≡ make_com (shape_of t)) }
{
    match t {
        Term::K(n) => Ok(Term::K(UnaryOp::Com.apply(n))),
        Term::Unary(UnaryOp::Com, t) => Ok(Box::into_inner(t)),
        t => unary(alloc, UnaryOp::Com, t),
    }
}

fn make_zx8(alloc: Global, facts: &[Fact], t: Term) -> Result<Term, NoMemory>
    ensures { IfOk result (λ r. shape_of r ≡ make_zx8 facts.now (shape_of t)) }
{
    match t {
        Term::K(n) => Ok(Term::K(UnaryOp::Zx8.apply(n))),
        Term::Unary(UnaryOp::Zx8, t) => make_zx8(alloc, facts, Box::into_inner(t)),
        Term::Unary(UnaryOp::Sx8, t) => make_zx8(alloc, facts, Box::into_inner(t)),
        Term::V(i) if has_size(facts, i, Size::Byte) => Ok(Term::V(i)),
        Term::Mem(Size::Byte, a) => Ok(Term::Mem(Size::Byte, a)),
        t => unary(alloc, UnaryOp::Zx8, t),
    }
}

fn make_zx16(alloc: Global, facts: &[Fact], t: Term) -> Result<Term, NoMemory>
    ensures { IfOk result (λ r. shape_of r ≡ make_zx16 facts.now (shape_of t)) }
{
    match t {
        Term::K(n) => Ok(Term::K(UnaryOp::Zx16.apply(n))),
        Term::Unary(UnaryOp::Zx16, t) => make_zx16(alloc, facts, Box::into_inner(t)),
        Term::Unary(UnaryOp::Sx16, t) => make_zx16(alloc, facts, Box::into_inner(t)),
        Term::V(i) if has_size(facts, i, Size::Word) => Ok(Term::V(i)),
        Term::Mem(Size::Word, a) => Ok(Term::Mem(Size::Word, a)),
        t => unary(alloc, UnaryOp::Zx16, t),
    }
}

fn make_sx8(alloc: Global, t: Term) -> Result<Term, NoMemory>
    ensures { IfOk result (λ r. shape_of r ≡ make_sx8 (shape_of t)) }
{
    match t {
        Term::K(n) => Ok(Term::K(UnaryOp::Sx8.apply(n))),
        Term::Unary(UnaryOp::Sx8, t) => make_sx8(alloc, Box::into_inner(t)),
        Term::Unary(UnaryOp::Zx8, t) => make_sx8(alloc, Box::into_inner(t)),
        t => unary(alloc, UnaryOp::Sx8, t),
    }
}

fn make_sx16(alloc: Global, t: Term) -> Result<Term, NoMemory>
    ensures { IfOk result (λ r. shape_of r ≡ make_sx16 (shape_of t)) }
{
    match t {
        Term::K(n) => Ok(Term::K(UnaryOp::Sx16.apply(n))),
        Term::Unary(UnaryOp::Sx16, t) => make_sx16(alloc, Box::into_inner(t)),
        Term::Unary(UnaryOp::Zx16, t) => make_sx16(alloc, Box::into_inner(t)),
        t => unary(alloc, UnaryOp::Sx16, t),
    }
}

// A constant and a term.
fn add_constant(alloc: Global, c: u32, t: Term) -> Result<Term, NoMemory>
    ensures { IfOk result (λ r. shape_of r ≡ add_constant c (shape_of t)) }
{
    match t {
        Term::K(d) => Ok(Term::K(BinaryOp::Add.apply(c, d))),
        t if c == 0 => Ok(t),
        Term::Binary(BinaryOp::Add, first, rest) => match *first {
            Term::K(d) => add_constant(alloc, BinaryOp::Add.apply(c, d), Box::into_inner(rest)),
            _ => binary(
                alloc,
                BinaryOp::Add,
                Term::K(c),
                Term::Binary(BinaryOp::Add, first, rest),
            ),
        },
        t => binary(alloc, BinaryOp::Add, Term::K(c), t),
    }
}

fn add_ordered(alloc: Global, a: Term, b: Term) -> Result<Term, NoMemory>
    ensures { IfOk result (λ r. shape_of r ≡ add_ordered (shape_of a) (shape_of b)) }
{
    match a {
        Term::K(c) => add_constant(alloc, c, b),
        a => binary(alloc, BinaryOp::Add, a, b),
    }
}

fn make_add(alloc: Global, a: Term, b: Term) -> Result<Term, NoMemory>
    ensures { IfOk result (λ r. shape_of r ≡ make_add (shape_of a) (shape_of b)) }
{
    match compare(alloc, &a, &b)? {
        Ordering::Greater => add_ordered(alloc, b, a),
        _ => add_ordered(alloc, a, b),
    }
}

fn make_sub(alloc: Global, a: Term, b: Term) -> Result<Term, NoMemory>
    ensures { IfOk result (λ r. shape_of r ≡ make_sub (shape_of a) (shape_of b)) }
{
    match a {
        Term::K(c) => sub_from(alloc, c, b),
        a => add_negative(alloc, a, b),
    }
}

fn sub_from(alloc: Global, c: u32, b: Term) -> Result<Term, NoMemory>
    ensures { IfOk result (λ r. shape_of r ≡ make_sub (Constant c) (shape_of b)) }
{
    match b {
        Term::K(d) => Ok(Term::K(BinaryOp::Sub.apply(c, d))),
        b => add_negative(alloc, Term::K(c), b),
    }
}

// A difference is a sum with the negative.
fn add_negative(alloc: Global, a: Term, b: Term) -> Result<Term, NoMemory>
    ensures { IfOk result (λ r. shape_of r ≡ make_add (shape_of a) (make_neg (shape_of b))) }
{
    let b = make_neg(alloc, b)?;
    make_add(alloc, a, b)
}

fn mul_ordered(alloc: Global, a: Term, b: Term) -> Result<Term, NoMemory>
    ensures { IfOk result (λ r. shape_of r ≡ mul_ordered (shape_of a) (shape_of b)) }
{
    match (a, b) {
        (Term::K(c), Term::K(d)) => Ok(Term::K(BinaryOp::Mul.apply(c, d))),
        (Term::K(1), b) => Ok(b),
        (a, b) => binary(alloc, BinaryOp::Mul, a, b),
    }
}

fn make_mul(alloc: Global, a: Term, b: Term) -> Result<Term, NoMemory>
    ensures { IfOk result (λ r. shape_of r ≡ make_mul (shape_of a) (shape_of b)) }
{
    match compare(alloc, &a, &b)? {
        Ordering::Greater => mul_ordered(alloc, b, a),
        _ => mul_ordered(alloc, a, b),
    }
}

fn make_div(alloc: Global, a: Term, b: Term) -> Result<Term, NoMemory>
    ensures { IfOk result (λ r. shape_of r ≡ make_div (shape_of a) (shape_of b)) }
{
    match (a, b) {
        (Term::K(c), Term::K(d)) if d != 0 => Ok(Term::K(BinaryOp::Div.apply(c, d))),
        (a, b) => binary(alloc, BinaryOp::Div, a, b),
    }
}

// Whether the term is a symbol that is a constant from 0 to 31.
fn is_count_symbol(facts: &[Fact], t: &Term) -> bool
    ensures { result ≡ is_count_symbol facts.now (shape_of t.now) }
{
    match t {
        Term::V(i) => is_count(facts, *i),
        _ => false,
    }
}

// Whether the bits of the term stay under this mask.
fn masks_nothing(facts: &[Fact], mask: u32, t: &Term) -> bool
    ensures { result ≡ masks_nothing facts.now mask (shape_of t.now) }
{
    mask == u32::MAX || (mask == 31 && is_count_symbol(facts, t))
}

fn and_constant(alloc: Global, facts: &[Fact], c: u32, t: Term) -> Result<Term, NoMemory>
    ensures { IfOk result (λ r. shape_of r ≡ and_ordered facts.now (Constant c) (shape_of t)) }
{
    match t {
        Term::K(d) => Ok(Term::K(BinaryOp::And.apply(c, d))),
        t if masks_nothing(facts, c, &t) => Ok(t),
        t => binary(alloc, BinaryOp::And, Term::K(c), t),
    }
}

fn and_ordered(alloc: Global, facts: &[Fact], a: Term, b: Term) -> Result<Term, NoMemory>
    ensures { IfOk result (λ r. shape_of r ≡ and_ordered facts.now (shape_of a) (shape_of b)) }
{
    match a {
        Term::K(c) => and_constant(alloc, facts, c, b),
        a => binary(alloc, BinaryOp::And, a, b),
    }
}

fn make_and(alloc: Global, facts: &[Fact], a: Term, b: Term) -> Result<Term, NoMemory>
    ensures { IfOk result (λ r. shape_of r ≡ make_and facts.now (shape_of a) (shape_of b)) }
{
    match compare(alloc, &a, &b)? {
        Ordering::Greater => and_ordered(alloc, facts, b, a),
        _ => and_ordered(alloc, facts, a, b),
    }
}

fn or_ordered(alloc: Global, a: Term, b: Term) -> Result<Term, NoMemory>
    ensures { IfOk result (λ r. shape_of r ≡ or_ordered (shape_of a) (shape_of b)) }
{
    match (a, b) {
        (Term::K(c), Term::K(d)) => Ok(Term::K(BinaryOp::Or.apply(c, d))),
        (Term::K(0), b) => Ok(b),
        (a, b) => binary(alloc, BinaryOp::Or, a, b),
    }
}

fn make_or(alloc: Global, a: Term, b: Term) -> Result<Term, NoMemory>
    ensures { IfOk result (λ r. shape_of r ≡ make_or (shape_of a) (shape_of b)) }
{
    match compare(alloc, &a, &b)? {
        Ordering::Greater => or_ordered(alloc, b, a),
        _ => or_ordered(alloc, a, b),
    }
}

fn xor_ordered(alloc: Global, a: Term, b: Term) -> Result<Term, NoMemory>
    ensures { IfOk result (λ r. shape_of r ≡ xor_ordered (shape_of a) (shape_of b)) }
{
    match (a, b) {
        (Term::K(c), Term::K(d)) => Ok(Term::K(BinaryOp::Xor.apply(c, d))),
        (Term::K(0), b) => Ok(b),
        (a, b) => binary(alloc, BinaryOp::Xor, a, b),
    }
}

fn make_xor(alloc: Global, a: Term, b: Term) -> Result<Term, NoMemory>
    ensures { IfOk result (λ r. shape_of r ≡ make_xor (shape_of a) (shape_of b)) }
{
    match compare(alloc, &a, &b)? {
        Ordering::Greater => xor_ordered(alloc, b, a),
        _ => xor_ordered(alloc, a, b),
    }
}

fn make_ash(alloc: Global, count: Term, t: Term) -> Result<Term, NoMemory>
    ensures { IfOk result (λ r. shape_of r ≡ make_ash (shape_of count) (shape_of t)) }
{
    match count {
        Term::K(k) => shift_by(alloc, k, t),
        Term::Unary(UnaryOp::Zx8, count) => make_ash(alloc, Box::into_inner(count), t),
        Term::Unary(UnaryOp::Sx8, count) => make_ash(alloc, Box::into_inner(count), t),
        count => binary(alloc, BinaryOp::Ash, count, t),
    }
}

fn shift_by(alloc: Global, k: u32, t: Term) -> Result<Term, NoMemory>
    ensures { IfOk result (λ r. shape_of r ≡ make_ash (Constant k) (shape_of t)) }
{
    match t {
        Term::K(d) => Ok(Term::K(BinaryOp::Ash.apply(k, d))),
        t if k < 32 => make_mul(alloc, Term::K(1 << k), t),
        t => binary(alloc, BinaryOp::Ash, Term::K(k), t),
    }
}
