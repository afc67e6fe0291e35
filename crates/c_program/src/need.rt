// How many longwords of its frame a function needs.
ghost use Rattle.std.specs.Prelude.{◌≡◌, ◌<◌, ◌≤◌, ◌^◌, ◌↔◌, min, map, max, ◌+◌, IfSome, IsSome};
ghost use Rattle.c_types.specs.Typed.{expression_of, place_of, expressions_of};
ghost use Rattle.c_program.specs.Statements.{act, acts, declaration, optional_expression};
ghost use Rattle.c_program.specs.Need.{nodes, place_nodes, all_nodes, maybe_nodes, returned_nodes, declared_nodes, largest};
ghost use Rattle.c_program.specs.Need.{largest_of, block_words, need_of};

use crate::statement::{Action, Declaration};
use c_types::{CType, Expression, Place};

#[cycle(nodes)]
fn place_nodes(place: &Place) -> u32
    ensures { result ≡ min (place_nodes (place_of place.now)) 4294967295 }
{
    match place {
        Place::Variable(_, _) => 1,
        Place::Indirection(_, e) => nodes(e).saturating_add(1),
        Place::Index(_, sum) => nodes(sum),
    }
}

fn joined(a: u32, b: u32) -> u32
    ensures { result ≡ min (1 + a + b) 4294967295 }
{
    a.saturating_add(b).saturating_add(1)
}

/// The nodes of an expression's source: each name, number, literal, operator, index and call is one, parentheses none.
#[cycle(nodes)]
pub fn nodes(e: &Expression) -> u32
    ensures { result ≡ min (nodes (expression_of e.now)) 4294967295 }
{
    match e {
        Expression::Number(_) => 1,
        Expression::Literal(_, _) => 1,
        Expression::Array(_, _, _) => 1,
        Expression::Read(p) => place_nodes(p),
        Expression::SizeofExpression(_, e) => nodes(e).saturating_add(1),
        Expression::SizeofType(_) => 1,
        Expression::Address(_, p) => place_nodes(p).saturating_add(1),
        Expression::Call(_, _, _, es) => all_nodes(es).saturating_add(2),
        Expression::Step(_, _, p) => place_nodes(p).saturating_add(1),
        Expression::Unary(_, e) => nodes(e).saturating_add(1),
        Expression::Cast(_, e) => nodes(e).saturating_add(1),
        Expression::Convert(_, e) => nodes(e),
        Expression::Arithmetic(_, a, b) => joined(nodes(a), nodes(b)),
        Expression::Compare(_, a, b) => joined(nodes(a), nodes(b)),
        Expression::AndAnd(a, b) => joined(nodes(a), nodes(b)),
        Expression::OrOr(a, b) => joined(nodes(a), nodes(b)),
        Expression::Advance(_, a, b) => joined(nodes(a), nodes(b)),
        Expression::AdvanceBy(_, a, b) => joined(nodes(a), nodes(b)),
        Expression::Retreat(_, a, b) => joined(nodes(a), nodes(b)),
        Expression::Distance(_, a, b) => joined(nodes(a), nodes(b)),
        Expression::Choice(_, c, a, b) => joined(nodes(c), nodes(a)).saturating_add(nodes(b)),
        Expression::Assign(p, e) => joined(place_nodes(p), nodes(e)),
        Expression::ArithmeticAssign(_, p, e) => joined(place_nodes(p), nodes(e)),
        Expression::AdvanceAssign(p, e) => joined(place_nodes(p), nodes(e)),
        Expression::RetreatAssign(p, e) => joined(place_nodes(p), nodes(e)),
        Expression::Comma(_, a, b) => joined(nodes(a), nodes(b)),
    }
}

#[cycle(nodes)]
fn all_nodes(es: &[Expression]) -> u32
    ensures { result ≡ min (all_nodes (expressions_of es.now)) 4294967295 }
{
    let mut sum = 0_u32;
    for e in es {
        sum = sum.saturating_add(nodes(e));
    }
    sum
}

fn maybe_nodes(e: &Option<Expression>) -> u32
    ensures { result ≡ min (maybe_nodes (optional_expression e.now)) 4294967295 }
{
    match e {
        None => 0,
        Some(e) => nodes(e),
    }
}

fn returned_nodes(e: &Option<Expression>) -> u32
    ensures { result ≡ min (returned_nodes (optional_expression e.now)) 4294967295 }
{
    match e {
        None => 1,
        Some(e) => nodes(e),
    }
}

fn one_declared(d: &Declaration) -> u32
    ensures { result ≡ min (one_declared (declaration d.now)) 4294967295 }
{
    match d {
        Declaration::Keep(_) => 0,
        Declaration::Clear(_) => 1,
        Declaration::Begin(_, e) => nodes(e),
        Declaration::Store(_, _, e) => nodes(e),
        Declaration::Zeros(_, _, _) => 1,
    }
}

fn declared_nodes(ds: &[Declaration]) -> u32
    ensures { result ≡ min (declared_nodes (map declaration ds.now)) 4294967295 }
{
    let mut most = 0;
    for d in ds {
        most = one_declared(d).max(most);
    }
    most
}

// The nodes of the largest full expression; a zero that the meaning supplies is one of one node.
#[cycle(largest)]
fn largest(a: &Action) -> u32
    ensures { result ≡ min (largest (act a.now)) 4294967295 }
{
    match a {
        Action::Declare(ds) => declared_nodes(ds),
        Action::Block(row) => largest_of(row),
        Action::Evaluate(e) => nodes(e),
        Action::Break => 0,
        Action::Continue => 0,
        Action::Return(e) => returned_nodes(e),
        Action::If(c, a) => nodes(c).max(largest(a)),
        Action::IfElse(c, a, b) => nodes(c).max(largest(a).max(largest(b))),
        Action::While(c, a) => nodes(c).max(largest(a)),
        Action::Do(a, c) => largest(a).max(nodes(c)),
        Action::For(i, c, e, a) => {
            let steps = maybe_nodes(c).max(maybe_nodes(e).max(largest(a)));
            maybe_nodes(i).max(steps)
        }
    }
}

#[cycle(largest)]
fn largest_of(row: &[Action]) -> u32
    ensures { result ≡ min (largest_of (acts row.now)) 4294967295 }
{
    let mut most = 0;
    for a in row {
        most = largest(a).max(most);
    }
    most
}

// The longwords that a function keeps for its block of memory locals.
fn block_words(block: u32) -> u32
    ensures { result ≡ block_words block }
{
    if block == 0 { 0 } else { 8 }
}

/// The automatic locals, 8 where the function has a block of memory locals, and three for each node of the largest full
/// expression; the end of the body supplies a zero. None where the number has more than 32 bits.
#[tactic(auto, unfolding(crate::specs::Need::need_of))]
pub fn need(locals: &[CType], block: u32, body: &[Action]) -> Option<u32>
    ensures count { IfSome result (λ n. n ≡ need_of locals.now block (acts body.now)) }
    ensures fits { IsSome result ↔ (need_of locals.now block (acts body.now) < 2 ^ 32) }
{
    let largest = u64::from(largest_of(body).max(1));
    let block = u64::from(block_words(block));
    let need = (locals.len() as u64).saturating_add(block + 3 * largest);
    u32::try_from(need).ok()
}

ghost use Rattle.c_program.specs.Need.{one_declared};
ghost use Rattle.std.specs.Prelude.{length, ◌*◌};
