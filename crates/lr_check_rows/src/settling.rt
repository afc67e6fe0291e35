// Which lists settle, as follows from rows, for sets of tokens behind.
ghost use Rattle.std.specs.Prelude.{◌≡◌, [], ◌∷◌, ◌++◌, IsTrue};
ghost use Rattle.md_reader.specs.declared.types.Sym.TheVariants as grammar_symbol;
ghost use Rattle.lr_check_found.specs.lr_check_sets.specs.Automaton.{walk};
ghost use Rattle.lr_check_found.specs.lr_check_sets.specs.Table.{automaton_of};
ghost use Rattle.lr_check_found.specs.Lists.{ListsView};
ghost use Rattle.lr_check_rows.specs.Rows.{IsLine, IsRow, AreSettled, IsReducedBy};

use crate::following::{is_behind, leads};
use crate::rows::{Line, Row};
use lr_check_found::may;
use lr_check_ways::{Reduction, has, is_within};
use lr_tables::Tables;
use md_reader::Sym;

/// Whether the row's token alone settles at the row, with each of the tokens behind.
pub fn settles_leaf(tables: &Tables, row: &Row, set: u64) -> bool
    ensures { (v : ListsView) → IsRow (automaton_of tables.now) v row.now → IsTrue result
        → AreSettled (automaton_of tables.now) row.now.state row.now.token (grammar_symbol.Tok row.now.token ∷ []) set }
{
    if row.token.kids().len() != 0 {
        return false;
    }
    match tables.over(row.state, Sym::Tok(row.token)) {
        Some(_) => is_within(set, row.places),
        None => false,
    }
}

/// Whether the only kid's list and the row's token settle there.
pub fn settles_one(tables: &Tables, row: &Row, kid: &Row, line: &Line, set: u64) -> bool
    ensures settled { (v : ListsView) → IsRow (automaton_of tables.now) v row.now
        → (h : IsLine (automaton_of tables.now) v kid.now.state kid.now.token line.now) → IsTrue result
        → AreSettled (automaton_of tables.now) row.now.state row.now.token (h.list ++ (grammar_symbol.Tok row.now.token ∷ [])) set }
    // The state behind them is the line's.
    ensures behind { (v : ListsView) (h : IsLine (automaton_of tables.now) v kid.now.state kid.now.token line.now) → IsTrue result
        → line.now.behind ≡ walk (automaton_of tables.now) row.now.state (h.list ++ (grammar_symbol.Tok row.now.token ∷ [])) }
{
    let kids = row.token.kids();
    if kids.len() != 1 {
        return false;
    }
    if !leads(tables, row, kid.state) {
        return false;
    }
    if !may(kid.token, kids[0]) {
        return false;
    }
    if !is_within(set, line.sums) {
        return false;
    }
    is_within(set, row.places)
}

/// Whether both kids' lists on top of each other and the row's token settle there.
pub fn settles_two(
    tables: &Tables,
    row: &Row,
    first: &Row,
    lower: &Line,
    second: &Row,
    upper: &Line,
    set: u64,
) -> bool
    ensures settled { (v : ListsView) → IsRow (automaton_of tables.now) v row.now
        → (h : IsLine (automaton_of tables.now) v first.now.state first.now.token lower.now)
        → (g : IsLine (automaton_of tables.now) v second.now.state second.now.token upper.now) → IsTrue result
        → AreSettled (automaton_of tables.now) row.now.state row.now.token
        (g.list ++ (h.list ++ (grammar_symbol.Tok row.now.token ∷ []))) set }
    // The state behind them is the second's line's.
    ensures behind { (v : ListsView) (h : IsLine (automaton_of tables.now) v first.now.state first.now.token lower.now)
        → (g : IsLine (automaton_of tables.now) v second.now.state second.now.token upper.now) → IsTrue result
        → upper.now.behind ≡ walk (automaton_of tables.now) row.now.state (g.list ++ (h.list ++ (grammar_symbol.Tok row.now.token ∷ []))) }
{
    let kids = row.token.kids();
    if kids.len() != 2 {
        return false;
    }
    if !leads(tables, row, first.state) {
        return false;
    }
    if !may(first.token, kids[0]) {
        return false;
    }
    if !may(second.token, kids[1]) {
        return false;
    }
    if !has(lower.sums, second.token) {
        return false;
    }
    if !is_behind(lower, second.state) {
        return false;
    }
    if !is_within(set, upper.sums) {
        return false;
    }
    is_within(set, row.places)
}

/// Whether the class of the reduction settles where the line does, whose list has so many symbols.
pub fn settles_reduced(
    line: &Line,
    size: usize,
    class: u16,
    reduction: &Reduction,
    set: u64,
) -> bool
    ensures { IsTrue result → IsReducedBy line.now size class set reduction.now }
{
    if reduction.long != size {
        return false;
    }
    if reduction.class != class {
        return false;
    }
    if !is_within(set, reduction.tokens) {
        return false;
    }
    is_within(set, line.settled)
}
