// What the parts of a pattern stand for.

ghost use Rattle.std.specs.Prelude.{◌≡◌, ◌++◌, [], ◌∷◌, map, IfOk, OnOk};
ghost use Rattle.term_core.specs.Shape.{shape_of, Binary};
ghost use Rattle.sel_terms.specs.Effects.{act_of};
ghost use Rattle.sel_terms.specs.Parts.{part_of, Worth, value_of, store, leaf_part, one_part, low_count, remainder, two_part, own_divisors};

use crate::effect::Act;
use crate::role::{LeafRole, OneRole, TwoRole};
use gg_base::{NoMemory, Size};
use std::alloc::Global;
use term_core::{BinaryOp, Term, UnaryOp, binary, copy, unary};

/// A value, the place of a symbol, memory at an address, or a statement.
#[derive(Drop)]
pub enum Part {
    Worth(Term),
    Home(Size, u8),
    At(Size, Term),
    Does(Act),
}

/// What a subtree of a pattern stands for, and by what it divides, in order of evaluation.
#[derive(Drop)]
pub struct Subtree {
    pub part: Part,
    pub divisors: Vec<Term>,
}

/// The value of a part; a place is worth what it holds.
pub fn value_of(alloc: Global, part: Part) -> Result<Term, NoMemory>
    ensures { IfOk result (λ t. shape_of t ≡ value_of (part_of part)) }
{
    match part {
        Part::Worth(t) => Ok(t),
        Part::Home(_, i) => Ok(Term::V(i)),
        Part::At(size, a) => Ok(Term::Mem(size, Box::new(alloc, a)?)),
        Part::Does(_) => Ok(Term::K(0)),
    }
}

/// What a symbol without kids stands for; it is the symbol with this number.
pub fn leaf_part(i: u8, role: LeafRole) -> Part
    ensures { part_of result ≡ leaf_part i role }
{
    match role {
        LeafRole::Constant(n) => Part::Worth(Term::K(n)),
        LeafRole::Symbol => Part::Worth(Term::V(i)),
        LeafRole::Home(size) => Part::Home(size, i),
        LeafRole::Call => Part::Does(Act::Call),
        LeafRole::Save => Part::Does(Act::Save(i)),
        LeafRole::Jump => Part::Does(Act::Jump),
    }
}

/// What a token makes of the value of its kid.
pub fn one_part(alloc: Global, role: OneRole, t: Term) -> Result<Part, NoMemory>
    ensures { IfOk result (λ p. part_of p ≡ one_part role (shape_of t)) }
{
    match role {
        OneRole::Memory(size) => Ok(Part::At(size, t)),
        OneRole::Operator(op) => {
            let t = unary(alloc, op, t)?;
            Ok(Part::Worth(t))
        }
        OneRole::Push => Ok(Part::Does(Act::Push(t))),
        OneRole::Return => Ok(Part::Does(Act::Return(t))),
    }
}

fn store(place: Part, t: Term) -> Act
    ensures { act_of result ≡ store (part_of place) (shape_of t) }
{
    match place {
        Part::Home(size, i) => Act::StoreHome(size, i, t),
        Part::At(size, a) => Act::StoreAt(size, a, t),
        _ => Act::Push(t),
    }
}

// The count of a shift, modulo 32.
fn low_count(alloc: Global, count: Term) -> Result<Term, NoMemory>
    ensures { IfOk result (λ r. shape_of r ≡ low_count (shape_of count)) }
{
    binary(alloc, BinaryOp::And, count, Term::K(31))
}

// What the quotient leaves.
fn remainder(alloc: Global, a: Term, b: Term) -> Result<Term, NoMemory>
    ensures { IfOk result (λ r. shape_of r ≡ remainder (shape_of a) (shape_of b)) }
{
    let dividend = copy(alloc, &a)?;
    let divisor = copy(alloc, &b)?;
    let quotient = binary(alloc, BinaryOp::Div, dividend, divisor)?;
    let product = binary(alloc, BinaryOp::Mul, quotient, b)?;
    binary(alloc, BinaryOp::Sub, a, product)
}

// An operator on the value of the left part and the right term.
fn operator(alloc: Global, op: BinaryOp, left: Part, b: Term) -> Result<Part, NoMemory>
    ensures { IfOk result (λ p. part_of p ≡ Worth (Binary op (value_of (part_of left)) (shape_of b))) }
{
    let a = value_of(alloc, left)?;
    let t = binary(alloc, op, a, b)?;
    Ok(Part::Worth(t))
}

fn shift(alloc: Global, count: Term, left: Part) -> Result<Part, NoMemory>
    ensures { IfOk result (λ p. part_of p ≡ Worth (Binary BinaryOp.Ash (shape_of count) (value_of (part_of left)))) }
{
    let t = value_of(alloc, left)?;
    let t = binary(alloc, BinaryOp::Ash, count, t)?;
    Ok(Part::Worth(t))
}

/// What a token, the symbol with this number, makes of its left kid and of the value of its right one.
pub fn two_part(alloc: Global, i: u8, role: TwoRole, left: Part, b: Term) -> Result<Part, NoMemory>
    ensures { IfOk result (λ p. part_of p ≡ two_part i role (part_of left) (shape_of b)) }
{
    match role {
        TwoRole::Operator(op) => operator(alloc, op, left, b),
        TwoRole::Quotient => operator(alloc, BinaryOp::Div, left, b),
        TwoRole::Remainder => {
            let a = value_of(alloc, left)?;
            let t = remainder(alloc, a, b)?;
            Ok(Part::Worth(t))
        }
        TwoRole::LeftShift => {
            let count = low_count(alloc, b)?;
            shift(alloc, count, left)
        }
        TwoRole::RightShift => {
            let count = low_count(alloc, b)?;
            let count = unary(alloc, UnaryOp::Neg, count)?;
            shift(alloc, count, left)
        }
        TwoRole::Assign => Ok(Part::Does(store(left, b))),
        TwoRole::Branch => {
            let a = value_of(alloc, left)?;
            Ok(Part::Does(Act::Branch(i, a, b)))
        }
    }
}

/// Adds what a token itself divides by: the value of its right kid.
pub fn add_divisor(
    alloc: Global,
    divisors: &mut Vec<Term>,
    role: TwoRole,
    b: &Term,
) -> Result<(), NoMemory>
    ensures { OnOk result (map shape_of divisors.new.items ≡ map shape_of divisors.old.items ++ own_divisors role (shape_of b.now)) }
{
    match role {
        TwoRole::Quotient | TwoRole::Remainder => {
            let divisor = copy(alloc, b)?;
            divisors.push(divisor)?;
            Ok(())
        }
        _ => Ok(()),
    }
}
