// Whether a step follows from what is held.
ghost use Rattle.std.specs.Prelude.{ℕ, [], ◌∷◌, IfSome, IsTrue, Contains};
ghost use Rattle.tree_core.specs.declared.token.Tok.{Tok};
ghost use Rattle.md_reader.specs.declared.types.Sym.TheVariants as grammar_symbol;
ghost use Rattle.lr_check_found.specs.lr_check_sets.specs.Automaton.{Automaton};
ghost use Rattle.lr_check_found.specs.lr_check_sets.specs.Table.{automaton_of};
ghost use Rattle.lr_check_ways.specs.declared.ways.Reduction.{Reduction};
ghost use Rattle.lr_check_rows.specs.Rows.{IsLine, IsRow, ArePlaces, AreSettled, IsReducedBy};
ghost use Rattle.lr_check_store.specs.Store.{IsSound};
ghost use Rattle.lr_check_store.specs.Adding.{IsMade, IsReducedAt};

use crate::store::{Store, line_at};
use lr_check_plan::{Begins, Settles, Source};
use lr_check_rows::{
    Line, Row, begins_first, begins_only, begins_second, begins_whole, settles_leaf, settles_one,
    settles_reduced, settles_two,
};
use lr_check_ways::Reduction;
use lr_tables::{State, Tables};
use md_reader::Sym;
use tree_core::Tok;

/// The lists of the last kid and of the first of two, by number, on top of the token, and the state behind them.
#[derive(Clone, Copy, Debug)]
pub struct Made {
    pub token: Tok,
    pub upper: usize,
    pub lower: usize,
    pub behind: Option<State>,
}

// Whether the reduction of one of them makes the class of the line's whole list.
fn some_reduces(reductions: &[Reduction], line: &Line, size: usize, class: u16, set: u64) -> bool
    ensures { IsTrue result → (x : Reduction) × (Contains reductions.now x × IsReducedBy line.now size class set x) }
{
    reductions.iter().any(|reduction| settles_reduced(line, size, class, reduction, set))
}

impl Store {
    fn only_begins(&self, tables: &Tables, row: usize, state: State, token: Tok, set: u64) -> bool
        requires { IsSound (automaton_of tables.now) self.now }
        ensures { IsTrue result → ArePlaces (automaton_of tables.now) state token set }
    {
        match self.row_at(row) {
            Some(row) => begins_only(tables, row, state, token, set),
            None => false,
        }
    }

    fn first_begins(&self, tables: &Tables, row: usize, state: State, token: Tok, set: u64) -> bool
        requires { IsSound (automaton_of tables.now) self.now }
        ensures { IsTrue result → ArePlaces (automaton_of tables.now) state token set }
    {
        match self.row_at(row) {
            Some(row) => begins_first(tables, row, state, token, set),
            None => false,
        }
    }

    // Whether the second kid may begin so, behind the list of the first.
    fn second_begins(
        &self,
        tables: &Tables,
        row: &Row,
        first: Source,
        state: State,
        token: Tok,
        set: u64,
    ) -> bool
        requires { IsSound (automaton_of tables.now) self.now }
        ensures { IsRow (automaton_of tables.now) self.now.lists row.now → IsTrue result
            → ArePlaces (automaton_of tables.now) state token set }
    {
        let kid = match self.row_at(first.row) {
            Some(kid) => kid,
            None => return false,
        };
        match line_at(kid, first.entry) {
            Some(line) => begins_second(tables, row, kid, line, state, token, set),
            None => false,
        }
    }

    fn begins_behind(
        &self,
        tables: &Tables,
        row: usize,
        first: Source,
        state: State,
        token: Tok,
        set: u64,
    ) -> bool
        requires { IsSound (automaton_of tables.now) self.now }
        ensures { IsTrue result → ArePlaces (automaton_of tables.now) state token set }
    {
        match self.row_at(row) {
            Some(row) => self.second_begins(tables, row, first, state, token, set),
            None => false,
        }
    }

    /// Whether places of the state and the token with these behind follow so.
    pub(crate) fn begins(
        &self,
        tables: &Tables,
        state: State,
        token: Tok,
        set: u64,
        by: Begins,
    ) -> bool
        requires { IsSound (automaton_of tables.now) self.now }
        ensures { IsTrue result → ArePlaces (automaton_of tables.now) state token set }
    {
        match by {
            Begins::Whole => begins_whole(tables, state, token, set),
            Begins::Only(row) => self.only_begins(tables, row, state, token, set),
            Begins::First(row) => self.first_begins(tables, row, state, token, set),
            Begins::Second(row, first) => self.begins_behind(tables, row, first, state, token, set),
        }
    }

    fn make_leaf(&self, tables: &Tables, at: usize, set: u64) -> Option<Made>
        requires { IsSound (automaton_of tables.now) self.now }
        ensures { IfSome result (λ m. IsMade (automaton_of tables.now) self.now at set m) }
    {
        let row = self.row_at(at)?;
        if !settles_leaf(tables, row, set) {
            return None;
        }
        Some(Made {
            token: row.token,
            upper: 0,
            lower: 0,
            behind: tables.over(row.state, Sym::Tok(row.token)),
        })
    }

    fn make_one(&self, tables: &Tables, at: usize, kid: Source, set: u64) -> Option<Made>
        requires { IsSound (automaton_of tables.now) self.now }
        ensures { IfSome result (λ m. IsMade (automaton_of tables.now) self.now at set m) }
    {
        let row = self.row_at(at)?;
        let below = self.row_at(kid.row)?;
        let line = line_at(below, kid.entry)?;
        if !settles_one(tables, row, below, line, set) {
            return None;
        }
        Some(Made {
            token: row.token,
            upper: line.list,
            lower: 0,
            behind: line.behind,
        })
    }

    fn make_two(
        &self,
        tables: &Tables,
        at: usize,
        first: Source,
        second: Source,
        set: u64,
    ) -> Option<Made>
        requires { IsSound (automaton_of tables.now) self.now }
        ensures { IfSome result (λ m. IsMade (automaton_of tables.now) self.now at set m) }
    {
        let row = self.row_at(at)?;
        let kid = self.row_at(first.row)?;
        let lower = line_at(kid, first.entry)?;
        let last = self.row_at(second.row)?;
        let upper = line_at(last, second.entry)?;
        if !settles_two(tables, row, kid, lower, last, upper, set) {
            return None;
        }
        Some(Made {
            token: row.token,
            upper: upper.list,
            lower: lower.list,
            behind: upper.behind,
        })
    }

    /// What settles so at the row, with each of the tokens behind.
    pub(crate) fn make(&self, tables: &Tables, at: usize, set: u64, by: Settles) -> Option<Made>
        requires { IsSound (automaton_of tables.now) self.now }
        ensures { IfSome result (λ m. IsMade (automaton_of tables.now) self.now at set m) }
    {
        match by {
            Settles::Leaf => self.make_leaf(tables, at, set),
            Settles::One(kid) => self.make_one(tables, at, kid, set),
            Settles::Two(first, second) => self.make_two(tables, at, first, second, set),
            Settles::Reduced(_, _) => None,
        }
    }

    // Whether the line's whole list becomes the class, with each of the tokens behind.
    fn reduces(&self, line: &Line, class: u16, set: u64) -> bool
        ensures { (A : Automaton) (q : ℕ) (k : Tok) → IsSound A self.now → IsLine A self.now.lists q k line.now → IsTrue result
            → AreSettled A q k (grammar_symbol.Class class ∷ []) set }
    {
        let behind = match line.behind {
            Some(behind) => behind,
            None => return false,
        };
        match self.ways_at(behind) {
            Some(ways) => some_reduces(&ways.reductions, line, self.size(line.list), class, set),
            None => false,
        }
    }

    /// The state of the row, if the whole list becomes the class there, with each of the tokens behind.
    pub(crate) fn reduced(&self, at: usize, entry: usize, class: u16, set: u64) -> Option<State>
        ensures { IfSome result (λ q. (A : Automaton) → IsSound A self.now → IsReducedAt A self.now at class set q) }
    {
        let row = self.row_at(at)?;
        let line = line_at(row, entry)?;
        if !self.reduces(line, class, set) {
            return None;
        }
        Some(row.state)
    }
}
