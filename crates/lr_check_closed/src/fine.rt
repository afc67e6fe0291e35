// Whether the rows show no fault.
ghost use Rattle.std.specs.Prelude.{◌≡◌, ℕ, IsTrue, IfOk, OnOk, Contains};
ghost use Rattle.lr_check_rows.specs.declared.rows.Line.{Line};
ghost use Rattle.lr_check_closed.specs.Looks.{automaton, IsSound};
ghost use Rattle.lr_check_closed.specs.Fine.{AreCalm, IsCalmAt, IsLineFine, IsShifted, IsFineAt};
ghost use Rattle.lr_check_closed.specs.Shown.{AreFine};

use crate::calm::{CalmAt, all_settle};
use crate::look::{Look, stands};
use gg_base::NoMemory;
use lr_check_rows::{Line, Row};
use lr_check_ways::both;
use lr_tables::State;
use md_reader::Sym;
use std::alloc::Global;

impl<'a> Look<'a> {
    // Whether the token of the row's places is shifted.
    fn is_shifted(&self, row: &Row) -> bool
        ensures { IsTrue result → IsShifted (automaton self.now) row.now }
    {
        if row.places == 0 {
            return true;
        }
        match self.tables.over(row.state, Sym::Tok(row.token)) {
            Some(_) => true,
            None => false,
        }
    }

    // Whether something is always taken behind the line's list, and reductions of it come to an end, by the calm classes.
    fn is_line_fine(&self, line: &Line, calm: &[u64]) -> bool
        requires { IsSound self.now }
        ensures { IsTrue result → (q : ℕ) → AreCalm (automaton self.now) q calm.now
            → IsLineFine (automaton self.now) self.now.lists.now q line.now }
    {
        let state = match line.behind {
            Some(state) => state,
            None => return true,
        };
        let ways = match self.ways_at(state) {
            Some(ways) => ways,
            None => return false,
        };
        if both(line.settled, ways.blocked) != 0 {
            return false;
        }
        let size = self.lists.get(line.list).len();
        all_settle(&ways.reductions, size, line.settled, calm)
    }

    fn are_lines_fine(&self, lines: &[Line], calm: &[u64]) -> bool
        requires { IsSound self.now }
        ensures { IsTrue result → (l : Line) → Contains lines.now l → (q : ℕ) → AreCalm (automaton self.now) q calm.now
            → IsLineFine (automaton self.now) self.now.lists.now q l }
    {
        lines.iter().all(|line| self.is_line_fine(line, calm))
    }

    // Whether the row with the number stands in its place and shows no fault; what is held of calm classes is of its state behind this.
    fn is_fine_at(&self, alloc: Global, at: usize, held: &mut CalmAt) -> Result<bool, NoMemory>
        requires sound { IsSound self.now }
        requires held { IsCalmAt (automaton self.now) held.old }
        ensures held { IfOk result (λ b. IsCalmAt (automaton self.now) held.new) }
        ensures fine { IfOk result (λ b. IsTrue b → IsFineAt (automaton self.now) self.now.lists.now self.now.rows.now at) }
    {
        let row = match self.rows.get(at) {
            Some(row) => row,
            None => return Ok(true),
        };
        if !stands(row, at) {
            return Ok(false);
        }
        if !self.is_shifted(row) {
            return Ok(false);
        }
        if row.lines.len() == 0 {
            return Ok(true);
        }
        self.hold(alloc, row.state, held)?;
        Ok(self.are_lines_fine(&row.lines, &held.sets))
    }

    /// Whether the rows show no fault: each token of a place is shifted, behind each list something is always taken, and reductions
    /// come to an end.
    pub fn is_fine(&self, alloc: Global) -> Result<bool, NoMemory>
        requires { IsSound self.now }
        ensures { IfOk result (λ b. IsTrue b → AreFine (automaton self.now) self.now.lists.now self.now.rows.now) }
    {
        let mut held = CalmAt {
            state: State::START,
            sets: Vec::new(alloc),
        };
        for at in 0..self.rows.len() {
            if !self.is_fine_at(alloc, at, &mut held)? {
                return Ok(false);
            }
        }
        Ok(true)
    }
}
