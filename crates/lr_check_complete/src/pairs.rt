// The two kids of places, as far as a sheet shows what follows from them.
ghost use Rattle.std.specs.Prelude.{IsTrue, IfOk, Contains};
ghost use Rattle.tree_core.specs.declared.token.Tok.{Tok};
ghost use Rattle.lr_check_found.specs.lr_check_sets.specs.Trees.{May};
ghost use Rattle.lr_check_complete.specs.declared.sheet.Line.{Line};
ghost use Rattle.lr_check_complete.specs.Looks.{automaton, WasFound, IsShownRight};
ghost use Rattle.lr_check_complete.specs.Kids.{BothIn, AtPlaces};
ghost use Rattle.lr_check_complete.specs.Sheets.{In, IsSheet};
ghost use Rattle.lr_check_complete.specs.Pairs.{IsWider, HasFirstIf, HasSecond, ArePaired};

use crate::look::Look;
use crate::masks::{has, is_within, with};
use crate::sheet::{Line, Row, Sheet, is_state};
use gg_base::NoMemory;
use lr_check_found::may;
use lr_tables::State;
use std::alloc::Global;
use tree_core::{Sort, Tok, tokens};

// The tokens that may begin a tree of the sort; that they are is looked at behind this.
fn beginnings(wanted: Sort) -> u64 {
    let mut set = 0;
    for token in tokens() {
        if may(*token, wanted) {
            set = with(set, *token);
        }
    }
    set
}

fn is_beginning(set: u64, wanted: Sort, token: Tok) -> bool
    ensures { IsTrue result → May token wanted → In set token }
{
    if !may(token, wanted) {
        return true;
    }
    has(set, token)
}

fn has_beginnings(set: u64, wanted: Sort, begins: &[Tok]) -> bool
    ensures { IsTrue result → (t : Tok) → Contains begins.now t → May t wanted → In set t }
{
    begins.iter().all(|token| is_beginning(set, wanted, *token))
}

// Whether the other line has the line's list, with at least its sums.
fn is_wider(line: &Line, other: &Line) -> bool
    ensures { IsTrue result → IsWider line.now other.now }
{
    if other.list != line.list {
        return false;
    }
    if !is_state(other.behind, line.behind) {
        return false;
    }
    is_within(line.sums, other.sums)
}

fn has_wider(firsts: &[Line], line: &Line) -> bool
    ensures { IsTrue result → (c : Line) × (Contains firsts.now c × IsWider line.now c) }
{
    firsts.iter().any(|other| is_wider(line, other))
}

fn all_wider(firsts: &[Line], lines: &[Line]) -> bool
    ensures { IsTrue result → (l : Line) → Contains lines.now l → (c : Line) × (Contains firsts.now c × IsWider l c) }
{
    lines.iter().all(|line| has_wider(firsts, line))
}

// The line's sums come to those of its list.
fn add_first(firsts: &mut Vec<Line>, line: &Line) -> Result<(), NoMemory> {
    match firsts.iter().position(|first| first.list == line.list) {
        Some(at) => {
            if let Some(first) = firsts.get_mut(at) {
                first.sums |= line.sums;
            }
        }
        None => firsts.push(*line)?,
    }
    Ok(())
}

// The lines of the first kid, one for each list; that all are there is looked at behind this.
fn firsts_of(
    alloc: Global,
    sheet: &Sheet,
    over: State,
    wanted: Sort,
) -> Result<Vec<Line>, NoMemory> {
    let mut firsts = Vec::new(alloc);
    for token in tokens() {
        if may(*token, wanted) {
            if let Some(kid) = sheet.row(over, *token) {
                for line in kid.lines.iter() {
                    add_first(&mut firsts, line)?;
                }
            }
        }
    }
    Ok(firsts)
}

// Whether the first kid has its places with all tokens of the set behind, and its lines are among the firsts.
fn has_first_at(kid: &Row, set: u64, firsts: &[Line]) -> bool
    ensures places { IsTrue result → (m : Tok) → In set m → In kid.now.places m }
    ensures lines { IsTrue result → (l : Line) → Contains kid.now.lines.items l → (c : Line) × (Contains firsts.now c × IsWider l c) }
{
    if !is_within(set, kid.places) {
        return false;
    }
    all_wider(firsts, &kid.lines)
}

// The same of the kid that begins with the token in the state, if it may.
fn has_first(
    sheet: &Sheet,
    set: u64,
    firsts: &[Line],
    over: State,
    wanted: Sort,
    token: Tok,
) -> bool
    ensures { IsTrue result → HasFirstIf sheet.now set firsts.now over wanted token }
{
    if !may(token, wanted) {
        return true;
    }
    match sheet.row(over, token) {
        Some(kid) => has_first_at(kid, set, firsts),
        None => false,
    }
}

fn has_all_first(
    sheet: &Sheet,
    set: u64,
    firsts: &[Line],
    over: State,
    wanted: Sort,
    begins: &[Tok],
) -> bool
    ensures { IsTrue result → (t : Tok) → Contains begins.now t → HasFirstIf sheet.now set firsts.now over wanted t }
{
    begins.iter().all(|token| has_first(sheet, set, firsts, over, wanted, *token))
}

impl<'a> Look<'a> {
    // Whether the second kid stands behind the first's list, if it may begin with the token.
    fn has_second(&self, sheet: &Sheet, row: &Row, first: &Line, wanted: Sort, token: Tok) -> bool
        requires { WasFound self.now }
        ensures { IsTrue result → May token wanted → In first.now.sums token
            → HasSecond sheet.now self.now.found.now row.now first.now token }
    {
        if !has(first.sums, token) {
            return true;
        }
        if !may(token, wanted) {
            return true;
        }
        match first.behind {
            Some(state) => self.has_kid(sheet, row, state, token, first.list),
            None => false,
        }
    }

    fn has_seconds_of(
        &self,
        sheet: &Sheet,
        row: &Row,
        first: &Line,
        wanted: Sort,
        begins: &[Tok],
    ) -> bool
        requires { WasFound self.now }
        ensures { IsTrue result → (m : Tok) → Contains begins.now m → May m wanted → In first.now.sums m
            → HasSecond sheet.now self.now.found.now row.now first.now m }
    {
        begins
            .iter()
            .all(|token| self.has_second(sheet, row, first, wanted, *token))
    }

    fn has_all_seconds(
        &self,
        sheet: &Sheet,
        row: &Row,
        firsts: &[Line],
        wanted: Sort,
        begins: &[Tok],
    ) -> bool
        requires { WasFound self.now }
        ensures { IsTrue result → (c : Line) → Contains firsts.now c → (m : Tok) → Contains begins.now m → May m wanted → In c.sums m
            → HasSecond sheet.now self.now.found.now row.now c m }
    {
        firsts.iter().all(|first| self.has_seconds_of(sheet, row, first, wanted, begins))
    }

    // Whether each first kid is among the firsts, and each second stands behind it.
    fn are_paired(
        &self,
        sheet: &Sheet,
        row: &Row,
        set: u64,
        firsts: &[Line],
        over: State,
        wanted: Sort,
        second: Sort,
    ) -> bool
        requires { WasFound self.now }
        ensures { IsTrue result → ArePaired sheet.now self.now.found.now row.now set firsts.now over wanted second }
    {
        if !has_beginnings(set, second, tokens()) {
            return false;
        }
        if !has_all_first(sheet, set, firsts, over, wanted, tokens()) {
            return false;
        }
        self.has_all_seconds(sheet, row, firsts, second, tokens())
    }

    fn has_both(
        &self,
        alloc: Global,
        sheet: &Sheet,
        numbers: &[usize],
        over: State,
        wanted: Sort,
        second: Sort,
    ) -> Result<bool, NoMemory>
        requires found { WasFound self.now }
        requires sheet { IsSheet sheet.now self.now.found.now }
        ensures { IfOk result (λ b. IsTrue b → AtPlaces self.now.found.now numbers.now
            (λ n x. BothIn (automaton self.now) self.now.found.now n x over wanted second)) }
    {
        let number = match numbers.first() {
            Some(number) => *number,
            None => return Ok(false),
        };
        let place = match self.found.places().get(number) {
            Some(place) => *place,
            None => return Ok(false),
        };
        let row = match sheet.row(place.state, place.token) {
            Some(row) => row,
            None => return Ok(false),
        };
        if !self.all_stand(numbers, row) {
            return Ok(false);
        }
        let set = beginnings(second);
        let firsts = firsts_of(alloc, sheet, over, wanted)?;
        Ok(self.are_paired(sheet, row, set, &firsts, over, wanted, second))
    }

    /// Whether all that follows from the two kids of the places is there, as far as the sheet that there may be shows.
    pub fn are_both_shown(
        &self,
        alloc: Global,
        numbers: &[usize],
        over: State,
        wanted: Sort,
        second: Sort,
    ) -> Result<bool, NoMemory>
        requires found { WasFound self.now }
        requires sheet { IsShownRight self.now }
        ensures { IfOk result (λ b. IsTrue b → AtPlaces self.now.found.now numbers.now
            (λ n x. BothIn (automaton self.now) self.now.found.now n x over wanted second)) }
    {
        match self.sheet {
            Some(sheet) => self.has_both(alloc, sheet, numbers, over, wanted, second),
            None => Ok(false),
        }
    }
}
