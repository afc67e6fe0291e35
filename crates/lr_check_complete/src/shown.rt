// What the sheet shows to be found.
ghost use Rattle.std.specs.Prelude.{◌≡◌, ℕ, Some, [], ◌∷◌, IsTrue, Contains};
ghost use Rattle.tree_core.specs.declared.token.Tok.{Tok};
ghost use Rattle.md_reader.specs.declared.types.Sym.TheVariants as grammar_symbol;
ghost use Rattle.lr_check_found.specs.Adding.{list_number};
ghost use Rattle.lr_check_found.specs.declared.settlings.Settling.{Settling};
ghost use Rattle.lr_check_found.specs.Found.{IsSettlingAt, Settles};
ghost use Rattle.lr_check_complete.specs.declared.sheet.Line.{Line};
ghost use Rattle.lr_check_complete.specs.Looks.{WasFound, IsShownRight};
ghost use Rattle.lr_check_complete.specs.Kids.{OnlyIn, SecondAt, AtPlaces};
ghost use Rattle.lr_check_complete.specs.Sheets.{In, IsSheet, IsAllLine, IsJoinedLine, HasKid, HasKidIf, StandsAt};

use crate::look::Look;
use crate::masks::{both, has, is_within};
use crate::sheet::{Line, Row, Sheet};
use lr_check_found::may;
use lr_tables::{State, number};
use tree_core::{Sort, Tok, tokens};

fn is_all_line(line: &Line, list: usize, behind: u64) -> bool
    ensures { IsTrue result → IsAllLine list behind line.now }
{
    if line.list != list {
        return false;
    }
    is_within(behind, line.settled)
}

// Whether the list settles with each of the tokens behind.
fn has_all_line(lines: &[Line], list: usize, behind: u64) -> bool
    ensures { IsTrue result → (l : Line) × (Contains lines.now l × IsAllLine list behind l) }
{
    lines.iter().any(|line| is_all_line(line, list, behind))
}

impl<'a> Look<'a> {
    // Whether the line's sums settle on the list below and the row's token, where the row has places.
    fn has_joined(&self, row: &Row, lower: usize, line: &Line) -> bool
        requires { WasFound self.now }
        ensures { IsTrue result → IsJoinedLine self.now.found.now row.now lower line.now }
    {
        let behind = both(line.sums, row.places);
        if behind == 0 {
            return true;
        }
        match self.found.lists().find_behind(row.token, line.list, lower) {
            Some(list) => has_all_line(&row.lines, list, behind),
            None => false,
        }
    }

    fn all_joined(&self, row: &Row, lower: usize, lines: &[Line]) -> bool
        requires { WasFound self.now }
        ensures { IsTrue result → (l : Line) → Contains lines.now l → IsJoinedLine self.now.found.now row.now lower l }
    {
        lines.iter().all(|line| self.has_joined(row, lower, line))
    }

    // Whether the place with the number is one of the row's.
    fn stands(&self, at: usize, row: &Row) -> bool
        ensures { IsTrue result → StandsAt self.now.found.now row.now at }
    {
        let place = match self.found.places().get(at) {
            Some(place) => *place,
            None => return false,
        };
        if place.state.number() != row.state.number() {
            return false;
        }
        if number(place.token) != number(row.token) {
            return false;
        }
        has(row.places, place.behind)
    }

    /// Whether each of the places is one of the row's.
    pub fn all_stand(&self, numbers: &[usize], row: &Row) -> bool
        ensures { IsTrue result → (n : ℕ) → Contains numbers.now n → StandsAt self.now.found.now row.now n }
    {
        numbers.iter().all(|at| self.stands(*at, row))
    }

    // The same of what follows from the second kid at its row.
    fn has_seconds_at(&self, row: &Row, kid: &Row, numbers: &[usize], first: usize) -> bool
        requires { WasFound self.now }
        ensures stand { IsTrue result → (n : ℕ) → Contains numbers.now n → StandsAt self.now.found.now row.now n }
        ensures within { IsTrue result → (b : Tok) → In row.now.places b → In kid.now.places b }
        ensures joined { IsTrue result → (l : Line) → Contains kid.now.lines.items l
            → IsJoinedLine self.now.found.now row.now (list_number self.now.found.now first) l }
    {
        if !is_within(row.places, kid.places) {
            return false;
        }
        if !self.all_joined(row, self.found.list_number(first), &kid.lines) {
            return false;
        }
        self.all_stand(numbers, row)
    }

    // Whether all that follows from the second kid behind the sum is there, as far as the sheet shows.
    fn has_seconds(
        &self,
        sheet: &Sheet,
        numbers: &[usize],
        first: usize,
        behind: State,
        token: Tok,
    ) -> bool
        requires found { WasFound self.now }
        requires sheet { IsSheet sheet.now self.now.found.now }
        ensures { IsTrue result → (e : Settling) → IsSettlingAt self.now.found.now first e → e.behind ≡ Some behind →
            AtPlaces self.now.found.now numbers.now (λ n x. SecondAt self.now.found.now n x token first) }
    {
        let number = match numbers.first() {
            Some(number) => *number,
            None => return false,
        };
        let place = match self.found.places().get(number) {
            Some(place) => *place,
            None => return false,
        };
        let row = match sheet.row(place.state, place.token) {
            Some(row) => row,
            None => return false,
        };
        match sheet.row(behind, token) {
            Some(kid) => self.has_seconds_at(row, kid, numbers, first),
            None => false,
        }
    }

    /// The same, by the sheet that there may be.
    pub fn are_shown(&self, numbers: &[usize], first: usize, behind: State, token: Tok) -> bool
        requires found { WasFound self.now }
        requires sheet { IsShownRight self.now }
        ensures { IsTrue result → (e : Settling) → IsSettlingAt self.now.found.now first e → e.behind ≡ Some behind →
            AtPlaces self.now.found.now numbers.now (λ n x. SecondAt self.now.found.now n x token first) }
    {
        match self.sheet {
            Some(sheet) => self.has_seconds(sheet, numbers, first, behind, token),
            None => false,
        }
    }

    // Whether the kid has all of the row's places, and its lines settle behind the list below.
    fn has_kid_at(&self, row: &Row, kid: &Row, lower: usize) -> bool
        requires { WasFound self.now }
        ensures within { IsTrue result → (b : Tok) → In row.now.places b → In kid.now.places b }
        ensures joined { IsTrue result → (l : Line) → Contains kid.now.lines.items l → IsJoinedLine self.now.found.now row.now lower l }
    {
        if !is_within(row.places, kid.places) {
            return false;
        }
        self.all_joined(row, lower, &kid.lines)
    }

    /// The same of the kid that begins with the token in the state.
    pub fn has_kid(&self, sheet: &Sheet, row: &Row, over: State, token: Tok, lower: usize) -> bool
        requires { WasFound self.now }
        ensures { IsTrue result → HasKid sheet.now self.now.found.now row.now over token lower }
    {
        match sheet.row(over, token) {
            Some(kid) => self.has_kid_at(row, kid, lower),
            None => false,
        }
    }

    // The same of the only kid, if it may begin with the token.
    fn has_only_from(&self, sheet: &Sheet, row: &Row, over: State, wanted: Sort, token: Tok) -> bool
        requires { WasFound self.now }
        ensures { IsTrue result → HasKidIf sheet.now self.now.found.now row.now over wanted token 0 }
    {
        if !may(token, wanted) {
            return true;
        }
        self.has_kid(sheet, row, over, token, 0)
    }

    fn has_onlys_from(
        &self,
        sheet: &Sheet,
        row: &Row,
        over: State,
        wanted: Sort,
        kids: &[Tok],
    ) -> bool
        requires { WasFound self.now }
        ensures { IsTrue result → (t : Tok) → Contains kids.now t → HasKidIf sheet.now self.now.found.now row.now over wanted t 0 }
    {
        kids.iter().all(|token| self.has_only_from(sheet, row, over, wanted, *token))
    }

    // Whether all that follows from the only kid of the places is there, as far as the sheet shows.
    fn has_onlys(&self, sheet: &Sheet, numbers: &[usize], over: State, wanted: Sort) -> bool
        requires found { WasFound self.now }
        requires sheet { IsSheet sheet.now self.now.found.now }
        ensures { IsTrue result → AtPlaces self.now.found.now numbers.now (λ n x. OnlyIn self.now.found.now n x over wanted) }
    {
        let number = match numbers.first() {
            Some(number) => *number,
            None => return false,
        };
        let place = match self.found.places().get(number) {
            Some(place) => *place,
            None => return false,
        };
        let row = match sheet.row(place.state, place.token) {
            Some(row) => row,
            None => return false,
        };
        if !self.all_stand(numbers, row) {
            return false;
        }
        self.has_onlys_from(sheet, row, over, wanted, tokens())
    }

    /// The same, by the sheet that there may be.
    pub fn are_onlys_shown(&self, numbers: &[usize], over: State, wanted: Sort) -> bool
        requires found { WasFound self.now }
        requires sheet { IsShownRight self.now }
        ensures { IsTrue result → AtPlaces self.now.found.now numbers.now (λ n x. OnlyIn self.now.found.now n x over wanted) }
    {
        match self.sheet {
            Some(sheet) => self.has_onlys(sheet, numbers, over, wanted),
            None => false,
        }
    }

    // Whether the token settles at each of the places, as far as the sheet shows.
    fn has_leaves(&self, sheet: &Sheet, numbers: &[usize], token: Tok) -> bool
        requires found { WasFound self.now }
        requires sheet { IsSheet sheet.now self.now.found.now }
        ensures { IsTrue result → AtPlaces self.now.found.now numbers.now
            (λ n x. Settles self.now.found.now n (grammar_symbol.Tok token ∷ [])) }
    {
        let number = match numbers.first() {
            Some(number) => *number,
            None => return false,
        };
        let place = match self.found.places().get(number) {
            Some(place) => *place,
            None => return false,
        };
        let row = match sheet.row(place.state, token) {
            Some(row) => row,
            None => return false,
        };
        if !self.all_stand(numbers, row) {
            return false;
        }
        match self.found.lists().find_behind(token, 0, 0) {
            Some(list) => has_all_line(&row.lines, list, row.places),
            None => false,
        }
    }

    /// The same, by the sheet that there may be.
    pub fn are_leaves_shown(&self, numbers: &[usize], token: Tok) -> bool
        requires found { WasFound self.now }
        requires sheet { IsShownRight self.now }
        ensures { IsTrue result → AtPlaces self.now.found.now numbers.now
            (λ n x. Settles self.now.found.now n (grammar_symbol.Tok token ∷ [])) }
    {
        match self.sheet {
            Some(sheet) => self.has_leaves(sheet, numbers, token),
            None => false,
        }
    }
}
