// What was found: for each state and token the tokens behind of its places, and the lists that settle there.
ghost use Rattle.std.specs.Prelude.{◌≡◌, [], IfSome, IsTrue, Some, length, slice_get, slice_index_or};
ghost use Rattle.tree_core.specs.declared.token.Tok.{Tok};
ghost use Rattle.lr_check_found.specs.lr_check_sets.specs.Automaton.{Automaton};
ghost use Rattle.lr_check_found.specs.Lists.{ListsView};
ghost use Rattle.lr_check_ways.specs.Sets.{In};
ghost use Rattle.lr_check_rows.specs.Rows.{IsLine, IsRow};
ghost use Rattle.lr_check_store.specs.Store.{slot};
ghost use Rattle.lr_check_store.specs.Adding.{StandsAt, HasOut};

use crate::sets::{none, outs, shared};
use lr_check_found::Lists;
use lr_check_rows::{Line, Row};
use lr_check_ways::Ways;
use lr_tables::{State, number};
use std::marker::Model;
use tree_core::Tok;

/// What was found of the sets of a description's tables: a row for each state and token, the lists of symbols, and what some answers
/// take at each state.
#[derive(Drop)]
pub struct Store {
    pub(crate) lists: Lists,
    pub(crate) rows: Vec<Row>,
    pub(crate) ways: Vec<Ways>,
}

impl Model for Store {
    ghost use Rattle.lr_check_store.specs.Store.{StoreView};

    ghost Value = { StoreView };

    ghost view = { λ s. record {
      lists = s.lists;
      rows = s.rows.items;
      ways = s.ways.items;
    } };
}

/// Where the row of the state and the token stands: there are 40 tokens.
pub fn slot_of(state: State, token: Tok) -> usize
    ensures { result ≡ slot state token }
{
    state.number() as usize * 40 + number(token)
}

// Whether the row is that of the state and the token.
fn is_of(row: &Row, state: State, token: Tok) -> bool
    ensures state { IsTrue result → row.now.state ≡ state }
    ensures token { IsTrue result → row.now.token ≡ token }
{
    if row.state.number() != state.number() {
        return false;
    }
    number(row.token) == number(token)
}

/// A line of the row.
pub fn line_at(row: &Row, at: usize) -> Option<&Line>
    ensures { IfSome result (λ l. (A : Automaton) (v : ListsView) → IsRow A v row.now → IsLine A v row.now.state row.now.token l.now) }
{
    row.lines.get(at)
}

impl Store {
    /// The lists of symbols.
    pub fn lists(&self) -> &Lists
        ensures { result.now ≡ self.now.lists }
    {
        &self.lists
    }

    /// All rows.
    pub fn rows(&self) -> &[Row]
        ensures { result.now ≡ self.now.rows }
    {
        &self.rows
    }

    /// What some answers take, by state.
    pub fn all_ways(&self) -> &[Ways]
        ensures { result.now ≡ self.now.ways }
    {
        &self.ways
    }

    pub(crate) fn row_at(&self, at: usize) -> Option<&Row>
        ensures { IfSome result (λ r. slice_get self.now.rows at ≡ Some r.now) }
    {
        self.rows.get(at)
    }

    pub(crate) fn ways_at(&self, state: State) -> Option<&Ways>
        ensures { IfSome result (λ w. slice_get self.now.ways state ≡ Some w.now) }
    {
        self.ways.get(state.number() as usize)
    }

    /// How many symbols the list has.
    pub(crate) fn size(&self, list: usize) -> usize
        ensures { result ≡ length (slice_index_or self.now.lists.all list []) }
    {
        self.lists.get(list).len()
    }

    /// Whether the row of the state and the token stands there.
    pub(crate) fn stands_at(&self, at: usize, state: State, token: Tok) -> bool
        ensures { IsTrue result → StandsAt self.now at state token }
    {
        match self.row_at(at) {
            Some(row) => is_of(row, state, token),
            None => false,
        }
    }

    /// Those of the tokens with which some way leads out of the list, which leads to the state.
    pub(crate) fn sums(&self, list: usize, behind: &Option<State>, set: u64) -> u64
        ensures within { (b : Tok) → In result b → In set b }
        ensures out { (b : Tok) → In result b → HasOut self.now list behind.now b }
    {
        let state = match behind {
            Some(state) => *state,
            None => return none(),
        };
        match self.ways_at(state) {
            Some(ways) => shared(set, outs(ways, self.size(list))),
            None => none(),
        }
    }
}
