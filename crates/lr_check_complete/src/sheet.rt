// What was found, as sets of tokens by state and token.
ghost use Rattle.std.specs.Prelude.{◌≡◌, ◌+◌, ◌*◌, List, IsTrue, IfSome, IfOk, Contains};
ghost use Rattle.tree_core.specs.declared.token.Tok.{Tok};
ghost use Rattle.lr_tables.specs.Symbols.{number};
ghost use Rattle.md_reader.specs.declared.types.Sym.{Sym};
ghost use Rattle.lr_check_found.specs.Lists.{IsList};
ghost use Rattle.lr_check_found.specs.lr_check_sets.specs.Table.{automaton_of};
ghost use Rattle.lr_check_found.specs.declared.settlings.Settling.{Settling};
ghost use Rattle.lr_check_found.specs.Sound.{IsFound};
ghost use Rattle.lr_check_complete.specs.declared.sheet.Line.{Line};
ghost use Rattle.lr_check_complete.specs.declared.sheet.Row.{Row};
ghost use Rattle.lr_check_complete.specs.Sets.{HasPlace, HasSettling};
ghost use Rattle.lr_check_complete.specs.Sheets.{In, IsRow, HasPlaces, HasLine, IsSumLine, IsShown, IsSheet};

use crate::masks::{has, with};
use gg_base::NoMemory;
use lr_check_found::{Found, Place, Settling};
use lr_tables::{State, Tables, number};
use std::alloc::Global;
use tree_core::{Tok, tokens};

/// A list by its number, the state behind it, and the tokens behind with which it settles, and with which it is a sum.
#[derive(Clone, Copy, Debug)]
pub struct Line {
    pub list: usize,
    pub behind: Option<State>,
    pub settled: u64,
    pub sums: u64,
}

/// What stands at a state and a token: the tokens behind of its places, and the lists.
#[derive(Drop)]
pub struct Row {
    pub state: State,
    pub token: Tok,
    pub places: u64,
    pub lines: Vec<Line>,
}

/// The rows, by state and token.
#[derive(Drop)]
pub struct Sheet {
    pub rows: Vec<Row>,
}

fn row_of(state: State, token: Tok) -> usize
    ensures { result ≡ state * 40 + number token }
{
    state.number() as usize * 40 + number(token)
}

fn add_line(row: &mut Row, settling: &Settling, behind: Tok) -> Result<(), NoMemory> {
    let at = match row.lines.iter().position(|line| line.list == settling.list) {
        Some(at) => at,
        None => {
            row.lines.push(Line {
                list: settling.list,
                behind: settling.behind,
                settled: 0,
                sums: 0,
            })?;
            row.lines.len() - 1
        }
    };
    if let Some(line) = row.lines.get_mut(at) {
        line.settled = with(line.settled, behind);
        if settling.is_sum {
            line.sums = with(line.sums, behind);
        }
    }
    Ok(())
}

// The rows; that they are right is looked at behind this.
fn rows(alloc: Global, tables: &Tables, found: &Found) -> Result<Sheet, NoMemory> {
    let mut rows = Vec::new(alloc);
    for number in 0..tables.states() {
        let state = match u16::try_from(number) {
            Ok(number) => State::of(number),
            Err(_) => break,
        };
        for token in tokens() {
            rows.push(Row {
                state,
                token: *token,
                places: 0,
                lines: Vec::new(alloc),
            })?;
        }
    }
    for place in found.places() {
        if let Some(row) = rows.get_mut(row_of(place.state, place.token)) {
            row.places = with(row.places, place.behind);
        }
    }
    for settling in found.settlings() {
        if let Some(place) = found.places().get(settling.place) {
            if let Some(row) = rows.get_mut(row_of(place.state, place.token)) {
                add_line(row, settling, place.behind)?;
            }
        }
    }
    Ok(Sheet { rows })
}

// Whether the row's place with the token behind is found.
fn is_place(found: &Found, row: &Row, behind: Tok) -> bool
    ensures { IsTrue result → HasPlace found.now row.now.state row.now.token behind }
{
    let place = Place {
        state: row.state,
        token: row.token,
        behind,
    };
    found.find(&place).is_some()
}

// The same, if it is one of the row's places.
fn is_place_if(found: &Found, row: &Row, behind: Tok) -> bool
    ensures { IsTrue result → In row.now.places behind → HasPlace found.now row.now.state row.now.token behind }
{
    if !has(row.places, behind) {
        return true;
    }
    is_place(found, row, behind)
}

fn are_places(found: &Found, row: &Row, behinds: &[Tok]) -> bool
    ensures { IsTrue result → (b : Tok) → Contains behinds.now b → In row.now.places b
        → HasPlace found.now row.now.state row.now.token b }
{
    behinds
        .iter()
        .all(|behind| is_place_if(found, row, *behind))
}

fn has_places(found: &Found, row: &Row) -> bool
    ensures { IsTrue result → HasPlaces found.now row.now }
{
    are_places(found, row, tokens())
}

// Whether the list settles at the row's place with the token behind.
fn is_settled(tables: &Tables, found: &Found, row: &Row, list: usize, behind: Tok) -> bool
    requires { IsFound (automaton_of tables.now) found.now }
    ensures { IsTrue result → (s : List Sym) → IsList found.now.lists list s
        → HasSettling found.now row.now.state row.now.token behind s }
{
    let place = Place {
        state: row.state,
        token: row.token,
        behind,
    };
    match found.find(&place) {
        Some(number) => found.settles(number, list),
        None => false,
    }
}

// The same, if the line says so.
fn is_settled_if(tables: &Tables, found: &Found, row: &Row, line: &Line, behind: Tok) -> bool
    requires { IsFound (automaton_of tables.now) found.now }
    ensures { IsTrue result → (s : List Sym) → In line.now.settled behind → IsList found.now.lists line.now.list s
        → HasSettling found.now row.now.state row.now.token behind s }
{
    if !has(line.settled, behind) {
        return true;
    }
    is_settled(tables, found, row, line.list, behind)
}

fn are_settled(tables: &Tables, found: &Found, row: &Row, line: &Line, behinds: &[Tok]) -> bool
    requires { IsFound (automaton_of tables.now) found.now }
    ensures { IsTrue result → (b : Tok) → Contains behinds.now b → (s : List Sym) → In line.now.settled b
        → IsList found.now.lists line.now.list s → HasSettling found.now row.now.state row.now.token b s }
{
    behinds
        .iter()
        .all(|behind| is_settled_if(tables, found, row, line, *behind))
}

fn has_line(tables: &Tables, found: &Found, row: &Row, line: &Line) -> bool
    requires { IsFound (automaton_of tables.now) found.now }
    ensures { IsTrue result → HasLine found.now row.now line.now }
{
    are_settled(tables, found, row, line, tokens())
}

fn has_lines(tables: &Tables, found: &Found, row: &Row) -> bool
    requires { IsFound (automaton_of tables.now) found.now }
    ensures { IsTrue result → (l : Line) → Contains row.now.lines.items l → HasLine found.now row.now l }
{
    row.lines
        .iter()
        .all(|line| has_line(tables, found, row, line))
}

fn all_places(found: &Found, rows: &[Row]) -> bool
    ensures { IsTrue result → (r : Row) → Contains rows.now r → HasPlaces found.now r }
{
    rows.iter().all(|row| has_places(found, row))
}

fn all_lines(tables: &Tables, found: &Found, rows: &[Row]) -> bool
    requires { IsFound (automaton_of tables.now) found.now }
    ensures { IsTrue result → (r : Row) → Contains rows.now r → (l : Line) → Contains r.lines.items l → HasLine found.now r l }
{
    rows.iter().all(|row| has_lines(tables, found, row))
}

/// Whether it is the same state.
pub fn is_state(one: Option<State>, other: Option<State>) -> bool
    ensures { IsTrue result → one ≡ other }
{
    match one {
        Some(one) => match other {
            Some(other) => one.number() == other.number(),
            None => false,
        },
        None => match other {
            Some(_) => false,
            None => true,
        },
    }
}

// Whether the line is of the settling's list, and has the token behind among its sums.
fn is_sum_line(line: &Line, settling: &Settling, behind: Tok) -> bool
    ensures { IsTrue result → IsSumLine settling.now behind line.now }
{
    if line.list != settling.list {
        return false;
    }
    if !is_state(line.behind, settling.behind) {
        return false;
    }
    has(line.sums, behind)
}

fn has_sum_line(lines: &[Line], settling: &Settling, behind: Tok) -> bool
    ensures { IsTrue result → (l : Line) × (Contains lines.now l × IsSumLine settling.now behind l) }
{
    lines.iter().any(|line| is_sum_line(line, settling, behind))
}

impl Sheet {
    /// The row of the state and the token.
    pub fn row(&self, state: State, token: Tok) -> Option<&Row>
        ensures { IfSome result (λ r. IsRow self.now state token r.now) }
    {
        match self.rows.get(row_of(state, token)) {
            Some(row) => {
                if row.state.number() != state.number() {
                    return None;
                }
                if number(row.token) != number(token) {
                    return None;
                }
                Some(row)
            }
            None => None,
        }
    }

    // Whether the settling is in the sheet, if it is a sum.
    fn shows(&self, found: &Found, settling: &Settling) -> bool
        ensures { IsTrue result → IsShown self.now found.now settling.now }
    {
        if !settling.is_sum {
            return true;
        }
        let place = match found.places().get(settling.place) {
            Some(place) => *place,
            None => return true,
        };
        match self.row(place.state, place.token) {
            Some(row) => has_sum_line(&row.lines, settling, place.behind),
            None => false,
        }
    }

    fn shows_all(&self, found: &Found, settlings: &[Settling]) -> bool
        ensures { IsTrue result → (e : Settling) → Contains settlings.now e → IsShown self.now found.now e }
    {
        settlings.iter().all(|settling| self.shows(found, settling))
    }

    fn is_right(&self, tables: &Tables, found: &Found) -> bool
        requires { IsFound (automaton_of tables.now) found.now }
        ensures { IsTrue result → IsSheet self.now found.now }
    {
        if !all_places(found, &self.rows) {
            return false;
        }
        if !all_lines(tables, found, &self.rows) {
            return false;
        }
        self.shows_all(found, found.settlings())
    }
}

/// What was found as a sheet, unless the sheet were wrong.
pub fn sheet_of(alloc: Global, tables: &Tables, found: &Found) -> Result<Option<Sheet>, NoMemory>
    requires { IsFound (automaton_of tables.now) found.now }
    ensures { IfOk result (λ o. IfSome o (λ s. IsSheet s found.now)) }
{
    let sheet = rows(alloc, tables, found)?;
    if sheet.is_right(tables, found) {
        Ok(Some(sheet))
    } else {
        Ok(None)
    }
}
