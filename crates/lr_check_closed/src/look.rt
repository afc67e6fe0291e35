// What is looked at.
ghost use Rattle.std.specs.Prelude.{◌≡◌, ◌+◌, ◌*◌, IsTrue, IfSome, Some, slice_get};
ghost use Rattle.lr_tables.specs.Symbols.{number};
ghost use Rattle.lr_check_closed.specs.Sets.{IsRowAt};
ghost use Rattle.lr_check_closed.specs.Closing.{StandsAt};

use lr_check_found::Lists;
use lr_check_rows::Row;
use lr_check_ways::Ways;
use lr_tables::{State, Tables, number};
use tree_core::Tok;

/// What was found of the tables: rows by state and token, with the lists that they name; and what some answers take at each state.
#[derive(Clone, Copy)]
pub struct Look<'a> {
    pub tables: &'a Tables,
    pub lists: &'a Lists,
    pub rows: &'a [Row],
    pub ways: &'a [Ways],
}

fn row_of(state: State, token: Tok) -> usize
    ensures { result ≡ state * 40 + number token }
{
    state.number() as usize * 40 + number(token)
}

/// Whether the row stands where its state and token say.
pub(crate) fn stands(row: &Row, at: usize) -> bool
    ensures { IsTrue result → StandsAt at row.now }
{
    at == row_of(row.state, row.token)
}

impl<'a> Look<'a> {
    /// The row of the state and the token.
    pub(crate) fn row(&self, state: State, token: Tok) -> Option<&Row>
        ensures { IfSome result (λ r. IsRowAt self.now.rows.now state token r.now) }
    {
        self.rows.get(row_of(state, token))
    }

    /// What some answers take at the state.
    pub(crate) fn ways_at(&self, state: State) -> Option<&Ways>
        ensures { IfSome result (λ w. slice_get self.now.ways.now state ≡ Some w.now) }
    {
        self.ways.get(state.number() as usize)
    }
}
