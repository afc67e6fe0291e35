// What may come behind a class: for each token the classes behind which it may come, as marks.
ghost use Rattle.std.specs.Prelude.{◌≡◌, IfOk, None};
ghost use Rattle.lr_tables.specs.Looking.{begin_edge, end_edge, begin_edges, end_edges, is_token, begun};
ghost use Rattle.lr_tables.specs.Looking.{begins, may_begin, marked_if, within, all_within, ended, follows};

use crate::item::number;
use crate::marks::{ClassSet, Edge, spread_all};
use crate::sets::{edge_to, mark_before};
use gg_base::NoMemory;
use md_reader::{Rule, Sym};
use std::alloc::Global;

// The number of `End`.
pub const END: usize = 39;

fn begin_edge(rule: &Rule) -> Option<Edge>
    ensures { result ≡ begin_edge rule.now }
{
    match rule.right.as_slice().first() {
        Some(Sym::Class(class)) => Some(Edge {
            from: *class,
            to: rule.left,
        }),
        Some(Sym::Tok(_)) => None,
        None => None,
    }
}

fn end_edge(rule: &Rule) -> Option<Edge>
    ensures { result ≡ end_edge rule.now }
{
    edge_to(rule.left, rule.right.as_slice().last().copied())
}

/// From the class that a right side begins with to the rule's class.
pub fn begin_edges(alloc: Global, rules: &[Rule]) -> Result<Vec<Edge>, NoMemory>
    ensures { IfOk result (λ edges. edges.items ≡ begin_edges rules.now) }
{
    let edges = rules.iter().filter_map(begin_edge).collect(alloc)?;
    Ok(edges)
}

/// From a rule's class to the class that its right side ends with.
pub fn end_edges(alloc: Global, rules: &[Rule]) -> Result<Vec<Edge>, NoMemory>
    ensures { IfOk result (λ edges. edges.items ≡ end_edges rules.now) }
{
    let edges = rules.iter().filter_map(end_edge).collect(alloc)?;
    Ok(edges)
}

// Whether the symbol is the token with this number.
fn is_token(token: usize, symbol: Option<Sym>) -> bool
    ensures { result ≡ is_token token symbol }
{
    match symbol {
        Some(Sym::Tok(t)) => number(t) == token,
        Some(Sym::Class(_)) => false,
        None => false,
    }
}

// Marks the classes of the rules that begin with the token.
fn begin(rules: &[Rule], token: usize, set: &mut ClassSet)
    ensures { set.new ≡ begun token rules.now set.old }
{
    for rule in rules {
        if is_token(token, rule.right.as_slice().first().copied()) {
            set.insert(rule.left);
        }
    }
}

// The classes that may begin with the token.
fn begins(
    alloc: Global,
    rules: &[Rule],
    classes: usize,
    edges: &[Edge],
    token: usize,
) -> Result<ClassSet, NoMemory>
    requires { edges.now ≡ begin_edges rules.now }
    ensures { IfOk result (λ set. set ≡ begins rules.now classes token) }
{
    let mut set = ClassSet::empty(alloc, classes)?;
    begin(rules, token, &mut set);
    spread_all(edges, classes, &mut set);
    Ok(set)
}

// Whether the symbol may begin with the token.
fn may_begin(token: usize, firsts: &ClassSet, symbol: Sym) -> bool
    ensures { result ≡ may_begin token firsts.now symbol }
{
    match symbol {
        Sym::Tok(t) => number(t) == token,
        Sym::Class(class) => firsts.contains(class),
    }
}

fn mark_if(holds: bool, symbol: Option<Sym>, set: &mut ClassSet)
    ensures { set.new ≡ marked_if holds symbol set.old }
{
    if holds {
        mark_before(symbol, set);
    }
}

// Marks the classes in a right side before a symbol that may begin with the token.
fn mark_within(token: usize, firsts: &ClassSet, right: &[Sym], set: &mut ClassSet)
    ensures { set.new ≡ within token firsts.now None right.now set.old }
{
    let mut before = None;
    for symbol in right {
        mark_if(may_begin(token, firsts, *symbol), before, set);
        before = Some(*symbol);
    }
}

fn mark_all_within(token: usize, firsts: &ClassSet, rules: &[Rule], set: &mut ClassSet)
    ensures { set.new ≡ all_within token firsts.now rules.now set.old }
{
    for rule in rules {
        mark_within(token, firsts, rule.right.as_slice(), set);
    }
}

// `End` comes behind the class of statements.
fn mark_end(stmt: u16, token: usize, set: &mut ClassSet)
    ensures { set.new ≡ ended stmt token set.old }
{
    if token == END {
        set.insert(stmt);
    }
}

/// The classes behind which the token may come.
pub fn follow(
    alloc: Global,
    rules: &[Rule],
    stmt: u16,
    classes: usize,
    begins_at: &[Edge],
    ends_at: &[Edge],
    token: usize,
) -> Result<ClassSet, NoMemory>
    requires begin { begins_at.now ≡ begin_edges rules.now }
    requires end { ends_at.now ≡ end_edges rules.now }
    ensures { IfOk result (λ set. set ≡ follows rules.now stmt classes token) }
{
    let firsts = begins(alloc, rules, classes, begins_at, token)?;
    let mut set = ClassSet::empty(alloc, classes)?;
    mark_end(stmt, token, &mut set);
    mark_all_within(token, &firsts, rules, &mut set);
    spread_all(ends_at, classes, &mut set);
    Ok(set)
}
