// Which places follow from rows, for sets of tokens behind.
ghost use Rattle.std.specs.Prelude.{◌≡◌, Some, IsTrue, Contains};
ghost use Rattle.tree_core.specs.declared.token.Tok.{Tok};
ghost use Rattle.tree_core.specs.declared.token.Tok.TheVariants as tok;
ghost use Rattle.md_reader.specs.declared.types.Sym.TheVariants as grammar_symbol;
ghost use Rattle.lr_check_found.specs.lr_check_sets.specs.Trees.{May};
ghost use Rattle.lr_check_found.specs.lr_check_sets.specs.Table.{automaton_of};
ghost use Rattle.lr_check_found.specs.Lists.{ListsView};
ghost use Rattle.lr_check_ways.specs.Sets.{In};
ghost use Rattle.lr_check_rows.specs.Rows.{IsLine, IsRow, ArePlaces};

use crate::rows::{Line, Row};
use lr_check_found::may;
use lr_check_ways::{has, is_within};
use lr_tables::{State, Tables, number};
use md_reader::Sym;
use tree_core::{Sort, Tok, tokens};

fn may_all(wanted: Sort, set: u64, begins: &[Tok]) -> bool
    ensures { IsTrue result → (b : Tok) → Contains begins.now b → In set b → May b wanted }
{
    begins.iter().all(|token| may_if(wanted, set, *token))
}

// Whether the token may begin a tree of the sort, if it is in the set.
fn may_if(wanted: Sort, set: u64, token: Tok) -> bool
    ensures { IsTrue result → In set token → May token wanted }
{
    if !has(set, token) {
        return true;
    }
    may(token, wanted)
}

fn has_some(set: u64, behinds: &[Tok]) -> bool
    ensures { IsTrue result → (b : Tok) × (Contains behinds.now b × In set b) }
{
    behinds.iter().any(|token| has(set, *token))
}

/// Whether the row's token leads to the state.
pub fn leads(tables: &Tables, row: &Row, state: State) -> bool
    ensures { IsTrue result → (automaton_of tables.now).go row.now.state (grammar_symbol.Tok row.now.token) ≡ Some state }
{
    match tables.over(row.state, Sym::Tok(row.token)) {
        Some(over) => over.number() == state.number(),
        None => false,
    }
}

/// Whether the line leads to the state.
pub fn is_behind(line: &Line, state: State) -> bool
    ensures { IsTrue result → line.now.behind ≡ Some state }
{
    match line.behind {
        Some(behind) => behind.number() == state.number(),
        None => false,
    }
}

/// Whether the whole tree may begin so: in the first state, with the end behind it.
pub fn begins_whole(tables: &Tables, state: State, token: Tok, set: u64) -> bool
    ensures { IsTrue result → ArePlaces (automaton_of tables.now) state token set }
{
    if state.number() != 0 {
        return false;
    }
    if !may(token, Sort::Stmt) {
        return false;
    }
    is_end(set, tokens())
}

// Whether the token is the end, if it is in the set.
fn is_end_if(set: u64, token: Tok) -> bool
    ensures { IsTrue result → In set token → token ≡ tok.End }
{
    if !has(set, token) {
        return true;
    }
    number(token) == number(Tok::End)
}

fn is_end(set: u64, behinds: &[Tok]) -> bool
    ensures { IsTrue result → (b : Tok) → Contains behinds.now b → In set b → b ≡ tok.End }
{
    behinds.iter().all(|token| is_end_if(set, *token))
}

/// Whether the only kid of the row's places may begin so.
pub fn begins_only(tables: &Tables, row: &Row, state: State, token: Tok, set: u64) -> bool
    ensures { (v : ListsView) → IsRow (automaton_of tables.now) v row.now → IsTrue result
        → ArePlaces (automaton_of tables.now) state token set }
{
    let kids = row.token.kids();
    if kids.len() != 1 {
        return false;
    }
    if !leads(tables, row, state) {
        return false;
    }
    if !may(token, kids[0]) {
        return false;
    }
    is_within(set, row.places)
}

/// Whether the first of two kids of the row's places may begin so, with what may begin the second behind it.
pub fn begins_first(tables: &Tables, row: &Row, state: State, token: Tok, set: u64) -> bool
    ensures { (v : ListsView) → IsRow (automaton_of tables.now) v row.now → IsTrue result
        → ArePlaces (automaton_of tables.now) state token set }
{
    let kids = row.token.kids();
    if kids.len() != 2 {
        return false;
    }
    if !has_some(row.places, tokens()) {
        return false;
    }
    if !leads(tables, row, state) {
        return false;
    }
    if !may(token, kids[0]) {
        return false;
    }
    may_all(kids[1], set, tokens())
}

/// Whether the second kid of the row's places may begin so, behind a list of the first.
pub fn begins_second(
    tables: &Tables,
    row: &Row,
    first: &Row,
    line: &Line,
    state: State,
    token: Tok,
    set: u64,
) -> bool
    ensures { (v : ListsView) → IsRow (automaton_of tables.now) v row.now
        → IsLine (automaton_of tables.now) v first.now.state first.now.token line.now → IsTrue result
        → ArePlaces (automaton_of tables.now) state token set }
{
    let kids = row.token.kids();
    if kids.len() != 2 {
        return false;
    }
    if !leads(tables, row, first.state) {
        return false;
    }
    if !may(first.token, kids[0]) {
        return false;
    }
    if !may(token, kids[1]) {
        return false;
    }
    if !has(line.sums, token) {
        return false;
    }
    if !is_behind(line, state) {
        return false;
    }
    is_within(set, row.places)
}
