// Whether the rows are closed under the rules of the sets.
ghost use Rattle.std.specs.Prelude.{◌≡◌, ℕ, IsTrue, IfOk, Contains};
ghost use Rattle.tree_core.specs.declared.token.Tok.{Tok};
ghost use Rattle.tree_core.specs.Grammar.{kids};
ghost use Rattle.lr_check_closed.specs.Looks.{automaton, IsSound};
ghost use Rattle.lr_check_closed.specs.Kids.{KidsIn};
ghost use Rattle.lr_check_closed.specs.Closing.{IsRowClosed, IsStarted, IsClosedAt};
ghost use Rattle.lr_check_closed.specs.Shown.{AreClosed};

use crate::look::{Look, stands};
use gg_base::NoMemory;
use lr_check_found::may;
use lr_check_rows::Row;
use lr_check_ways::has;
use lr_tables::State;
use md_reader::Sym;
use std::alloc::Global;
use tree_core::{Sort, Tok, tokens};

impl<'a> Look<'a> {
    // Whether a statement that begins with the token has its place in the first state, if there are such.
    fn is_started(&self, token: Tok) -> bool
        ensures { IsTrue result → IsStarted self.now.rows.now token }
    {
        if !may(token, Sort::Stmt) {
            return true;
        }
        match self.row(State::START, token) {
            Some(row) => has(row.places, Tok::End),
            None => false,
        }
    }

    fn are_started(&self, begins: &[Tok]) -> bool
        ensures { IsTrue result → (k : Tok) → Contains begins.now k → IsStarted self.now.rows.now k }
    {
        begins.iter().all(|token| self.is_started(*token))
    }

    // Whether what follows from the row's places and their kids, which begin in the state, is there.
    fn has_kids(&self, alloc: Global, row: &Row, over: State) -> Result<bool, NoMemory>
        requires { IsSound self.now }
        ensures { IfOk result (λ b. IsTrue b → KidsIn self.now.lists.now self.now.rows.now row.now over (kids row.now.token)) }
    {
        let kids = row.token.kids();
        if kids.len() == 0 {
            return Ok(self.has_leaf(row));
        }
        if kids.len() == 1 {
            return Ok(self.has_onlys(row, over, kids[0], tokens()));
        }
        if kids.len() == 2 {
            return self.has_both(alloc, row, over, kids[0], kids[1]);
        }
        Ok(false)
    }

    fn is_row_closed(&self, alloc: Global, row: &Row) -> Result<bool, NoMemory>
        requires { IsSound self.now }
        ensures { IfOk result (λ b. IsTrue b → IsRowClosed (automaton self.now) self.now.lists.now self.now.rows.now row.now) }
    {
        if !self.are_lines_closed(row, &row.lines) {
            return Ok(false);
        }
        if row.places == 0 {
            return Ok(true);
        }
        match self.tables.over(row.state, Sym::Tok(row.token)) {
            Some(over) => self.has_kids(alloc, row, over),
            None => Ok(false),
        }
    }

    // Whether the row with the number stands in its place and is closed.
    fn is_closed_at(&self, alloc: Global, at: usize) -> Result<bool, NoMemory>
        requires { IsSound self.now }
        ensures { IfOk result (λ b. IsTrue b → IsClosedAt (automaton self.now) self.now.lists.now self.now.rows.now at) }
    {
        let row = match self.rows.get(at) {
            Some(row) => row,
            None => return Ok(true),
        };
        if !stands(row, at) {
            return Ok(false);
        }
        self.is_row_closed(alloc, row)
    }

    /// Whether all that follows from the rows is in them, by the rules of the sets.
    pub fn is_closed(&self, alloc: Global) -> Result<bool, NoMemory>
        requires { IsSound self.now }
        ensures { IfOk result (λ b. IsTrue b → AreClosed (automaton self.now) self.now.lists.now self.now.rows.now) }
    {
        if !self.are_started(tokens()) {
            return Ok(false);
        }
        for at in 0..self.rows.len() {
            if !self.is_closed_at(alloc, at)? {
                return Ok(false);
            }
        }
        Ok(true)
    }
}
