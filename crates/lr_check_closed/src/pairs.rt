// Whether what follows from the two kids of a row's places is there.
ghost use Rattle.std.specs.Prelude.{◌≡◌, IsTrue, IfOk, IfSome, Contains};
ghost use Rattle.tree_core.specs.declared.token.Tok.{Tok};
ghost use Rattle.lr_check_found.specs.lr_check_sets.specs.Trees.{May};
ghost use Rattle.lr_check_ways.specs.Sets.{In};
ghost use Rattle.lr_check_rows.specs.declared.rows.Line.{Line};
ghost use Rattle.lr_check_closed.specs.Looks.{IsSound};
ghost use Rattle.lr_check_closed.specs.Kids.{IsWider, HasFirstIf, HasSecond, ArePaired};

use crate::look::Look;
use gg_base::NoMemory;
use indexmap::IndexSet;
use lr_check_found::may;
use lr_check_rows::{Line, Row};
use lr_check_ways::{has, is_within, with};
use lr_tables::State;
use std::alloc::Global;
use tree_core::{Sort, Tok, tokens};

/// The lines of a first kid, one for each list, and where the list's line stands.
#[derive(Drop)]
pub(crate) struct Firsts {
    lists: IndexSet<usize>,
    lines: Vec<Line>,
}

impl Firsts {
    fn new(alloc: Global) -> Self {
        Firsts {
            lists: IndexSet::new(alloc),
            lines: Vec::new(alloc),
        }
    }

    // The line's sums come to those of its list.
    fn add(&mut self, line: &Line) -> Result<(), NoMemory> {
        let (at, is_new) = self.lists.insert_full(line.list)?;
        if is_new {
            self.lines.push(*line)?;
        } else if let Some(first) = self.lines.get_mut(at) {
            first.sums |= line.sums;
        }
        Ok(())
    }

    // The line of the list.
    fn get(&self, list: usize) -> Option<&Line>
        ensures { IfSome result (λ l. Contains self.now.lines.items l.now) }
    {
        self.lines.get(self.lists.get_index_of(&list)?)
    }
}

// The tokens that may begin a tree of the sort; that they are is looked at behind this.
fn beginnings(wanted: Sort) -> u64 {
    let mut set = 0;
    for token in tokens() {
        if may(*token, wanted) {
            set = with(set, *token);
        }
    }
    set
}

fn is_beginning(set: u64, wanted: Sort, token: Tok) -> bool
    ensures { IsTrue result → May token wanted → In set token }
{
    if !may(token, wanted) {
        return true;
    }
    has(set, token)
}

fn has_beginnings(set: u64, wanted: Sort, begins: &[Tok]) -> bool
    ensures { IsTrue result → (t : Tok) → Contains begins.now t → May t wanted → In set t }
{
    begins.iter().all(|token| is_beginning(set, wanted, *token))
}

// Whether it is the same state.
fn is_state(one: Option<State>, other: Option<State>) -> bool
    ensures { IsTrue result → one ≡ other }
{
    match one {
        Some(one) => match other {
            Some(other) => one.number() == other.number(),
            None => false,
        },
        None => match other {
            Some(_) => false,
            None => true,
        },
    }
}

// Whether the other line has the line's list, with at least its sums.
fn is_wider(line: &Line, other: &Line) -> bool
    ensures { IsTrue result → IsWider line.now other.now }
{
    if other.list != line.list {
        return false;
    }
    if !is_state(other.behind, line.behind) {
        return false;
    }
    is_within(line.sums, other.sums)
}

fn has_wider(firsts: &Firsts, line: &Line) -> bool
    ensures { IsTrue result → (c : Line) × (Contains firsts.now.lines.items c × IsWider line.now c) }
{
    match firsts.get(line.list) {
        Some(first) => is_wider(line, first),
        None => false,
    }
}

fn all_wider(firsts: &Firsts, lines: &[Line]) -> bool
    ensures { IsTrue result → (l : Line) → Contains lines.now l → (c : Line) × (Contains firsts.now.lines.items c × IsWider l c) }
{
    lines.iter().all(|line| has_wider(firsts, line))
}

// Whether the first kid has its places with all tokens of the set behind, and its lines are among the firsts.
fn has_first_at(kid: &Row, set: u64, firsts: &Firsts) -> bool
    ensures places { IsTrue result → (m : Tok) → In set m → In kid.now.places m }
    ensures lines { IsTrue result → (l : Line) → Contains kid.now.lines.items l
        → (c : Line) × (Contains firsts.now.lines.items c × IsWider l c) }
{
    if !is_within(set, kid.places) {
        return false;
    }
    all_wider(firsts, &kid.lines)
}

impl<'a> Look<'a> {
    // The lines of the first kid, one for each list; that all are there is looked at behind this.
    fn firsts_of(&self, alloc: Global, over: State, wanted: Sort) -> Result<Firsts, NoMemory> {
        let mut firsts = Firsts::new(alloc);
        for token in tokens() {
            if may(*token, wanted) {
                if let Some(kid) = self.row(over, *token) {
                    for line in kid.lines.iter() {
                        firsts.add(line)?;
                    }
                }
            }
        }
        Ok(firsts)
    }

    // Whether the first kid that begins with the token in the state is so, if it may.
    fn has_first(&self, set: u64, firsts: &Firsts, over: State, wanted: Sort, token: Tok) -> bool
        ensures { IsTrue result → HasFirstIf self.now.rows.now set firsts.now.lines.items over wanted token }
    {
        if !may(token, wanted) {
            return true;
        }
        match self.row(over, token) {
            Some(kid) => has_first_at(kid, set, firsts),
            None => false,
        }
    }

    fn has_firsts(
        &self,
        set: u64,
        firsts: &Firsts,
        over: State,
        wanted: Sort,
        begins: &[Tok],
    ) -> bool
        ensures { IsTrue result → (t : Tok) → Contains begins.now t
            → HasFirstIf self.now.rows.now set firsts.now.lines.items over wanted t }
    {
        begins
            .iter()
            .all(|token| self.has_first(set, firsts, over, wanted, *token))
    }

    // Whether the second kid stands behind the first's list, if it may begin with the token.
    fn has_second(&self, row: &Row, first: &Line, wanted: Sort, token: Tok) -> bool
        requires { IsSound self.now }
        ensures { IsTrue result → May token wanted → In first.now.sums token
            → HasSecond self.now.lists.now self.now.rows.now row.now first.now token }
    {
        if !has(first.sums, token) {
            return true;
        }
        if !may(token, wanted) {
            return true;
        }
        match first.behind {
            Some(state) => self.has_kid(row, state, token, first.list),
            None => false,
        }
    }

    fn has_seconds_of(&self, row: &Row, first: &Line, wanted: Sort, begins: &[Tok]) -> bool
        requires { IsSound self.now }
        ensures { IsTrue result → (m : Tok) → Contains begins.now m → May m wanted → In first.now.sums m
            → HasSecond self.now.lists.now self.now.rows.now row.now first.now m }
    {
        begins
            .iter()
            .all(|token| self.has_second(row, first, wanted, *token))
    }

    fn has_seconds(&self, row: &Row, firsts: &[Line], wanted: Sort, begins: &[Tok]) -> bool
        requires { IsSound self.now }
        ensures { IsTrue result → (c : Line) → Contains firsts.now c → (m : Tok) → Contains begins.now m → May m wanted
            → In c.sums m → HasSecond self.now.lists.now self.now.rows.now row.now c m }
    {
        firsts
            .iter()
            .all(|first| self.has_seconds_of(row, first, wanted, begins))
    }

    /// Whether each sum of the first kid, which begins in the state, is one of the firsts, and each second kid stands behind it.
    pub(crate) fn has_both(
        &self,
        alloc: Global,
        row: &Row,
        over: State,
        wanted: Sort,
        second: Sort,
    ) -> Result<bool, NoMemory>
        requires { IsSound self.now }
        ensures { IfOk result (λ b. IsTrue b → ArePaired self.now.lists.now self.now.rows.now row.now over wanted second) }
    {
        let set = beginnings(second);
        let firsts = self.firsts_of(alloc, over, wanted)?;
        if !has_beginnings(set, second, tokens()) {
            return Ok(false);
        }
        if !self.has_firsts(set, &firsts, over, wanted, tokens()) {
            return Ok(false);
        }
        Ok(self.has_seconds(row, &firsts.lines, second, tokens()))
    }
}
