// Whether what follows from a row's places and their kids is there.
ghost use Rattle.std.specs.Prelude.{◌≡◌, ℕ, IsTrue, Contains};
ghost use Rattle.tree_core.specs.declared.token.Tok.{Tok};
ghost use Rattle.lr_check_ways.specs.Sets.{In};
ghost use Rattle.lr_check_rows.specs.declared.rows.Line.{Line};
ghost use Rattle.lr_check_closed.specs.Looks.{IsSound};
ghost use Rattle.lr_check_closed.specs.Kids.{IsAllLine, IsJoinedLine, HasKid, HasKidIf, HasLeaf};

use crate::look::Look;
use lr_check_found::may;
use lr_check_rows::{Line, Row};
use lr_check_ways::{both, is_within};
use lr_tables::State;
use tree_core::{Sort, Tok};

fn is_all_line(line: &Line, list: usize, behind: u64) -> bool
    ensures { IsTrue result → IsAllLine list behind line.now }
{
    if line.list != list {
        return false;
    }
    is_within(behind, line.settled)
}

/// Whether the list settles with each of the tokens behind.
pub fn has_all_line(lines: &[Line], list: usize, behind: u64) -> bool
    ensures { IsTrue result → (l : Line) × (Contains lines.now l × IsAllLine list behind l) }
{
    lines.iter().any(|line| is_all_line(line, list, behind))
}

impl<'a> Look<'a> {
    // Whether the line's sums settle on the list below and the row's token, where the row has places.
    fn has_joined(&self, row: &Row, lower: usize, line: &Line) -> bool
        requires { IsSound self.now }
        ensures { IsTrue result → IsJoinedLine self.now.lists.now row.now lower line.now }
    {
        let behind = both(line.sums, row.places);
        if behind == 0 {
            return true;
        }
        match self.lists.find_behind(row.token, line.list, lower) {
            Some(list) => has_all_line(&row.lines, list, behind),
            None => false,
        }
    }

    fn all_joined(&self, row: &Row, lower: usize, lines: &[Line]) -> bool
        requires { IsSound self.now }
        ensures { IsTrue result → (l : Line) → Contains lines.now l → IsJoinedLine self.now.lists.now row.now lower l }
    {
        lines.iter().all(|line| self.has_joined(row, lower, line))
    }

    fn has_kid_at(&self, row: &Row, kid: &Row, lower: usize) -> bool
        requires { IsSound self.now }
        ensures within { IsTrue result → (b : Tok) → In row.now.places b → In kid.now.places b }
        ensures joined { IsTrue result → (l : Line) → Contains kid.now.lines.items l → IsJoinedLine self.now.lists.now row.now lower l }
    {
        if !is_within(row.places, kid.places) {
            return false;
        }
        self.all_joined(row, lower, &kid.lines)
    }

    /// Whether the kid that begins with the token in the state has all of the row's places, and its sums settle behind the list
    /// below and the row's token.
    pub(crate) fn has_kid(&self, row: &Row, state: State, token: Tok, lower: usize) -> bool
        requires { IsSound self.now }
        ensures { IsTrue result → HasKid self.now.lists.now self.now.rows.now row.now state token lower }
    {
        match self.row(state, token) {
            Some(kid) => self.has_kid_at(row, kid, lower),
            None => false,
        }
    }

    // The same of the only kid, if it may begin with the token.
    fn has_only(&self, row: &Row, over: State, wanted: Sort, token: Tok) -> bool
        requires { IsSound self.now }
        ensures { IsTrue result → HasKidIf self.now.lists.now self.now.rows.now row.now over wanted token 0 }
    {
        if !may(token, wanted) {
            return true;
        }
        self.has_kid(row, over, token, 0)
    }

    /// Whether each token that may begin the only kid has its kid.
    pub(crate) fn has_onlys(&self, row: &Row, over: State, wanted: Sort, begins: &[Tok]) -> bool
        requires { IsSound self.now }
        ensures { IsTrue result → (t : Tok) → Contains begins.now t
            → HasKidIf self.now.lists.now self.now.rows.now row.now over wanted t 0 }
    {
        begins
            .iter()
            .all(|token| self.has_only(row, over, wanted, *token))
    }

    /// Whether the token alone settles with each of the row's places.
    pub(crate) fn has_leaf(&self, row: &Row) -> bool
        requires { IsSound self.now }
        ensures { IsTrue result → HasLeaf self.now.lists.now row.now }
    {
        match self.lists.find_behind(row.token, 0, 0) {
            Some(list) => has_all_line(&row.lines, list, row.places),
            None => false,
        }
    }
}
