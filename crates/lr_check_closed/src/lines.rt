// Whether what follows from a line's list is there.
ghost use Rattle.std.specs.Prelude.{◌≡◌, ◌<◌, [], ◌∷◌, IsTrue, Contains};
ghost use Rattle.tree_core.specs.declared.token.Tok.{Tok};
ghost use Rattle.md_reader.specs.declared.types.Sym.TheVariants as grammar_symbol;
ghost use Rattle.lr_check_ways.specs.Sets.{In};
ghost use Rattle.lr_check_ways.specs.declared.ways.Reduction.{Reduction};
ghost use Rattle.lr_check_rows.specs.declared.rows.Line.{Line};
ghost use Rattle.lr_check_closed.specs.Looks.{automaton, IsSound};
ghost use Rattle.lr_check_closed.specs.Sets.{HasLine};
ghost use Rattle.lr_check_closed.specs.Closing.{IsFollowed, IsLineClosed};

use crate::kids::has_all_line;
use crate::look::Look;
use lr_check_rows::{Line, Row};
use lr_check_ways::{Reduction, both, is_within};
use md_reader::Sym;

// Whether the reduction, if it leads out of the line's list of so many symbols, makes sums.
fn leads_out(line: &Line, reduction: &Reduction) -> bool
    ensures { IsTrue result → (b : Tok) → In line.now.settled b → In reduction.now.tokens b → In line.now.sums b }
{
    is_within(both(line.settled, reduction.tokens), line.sums)
}

impl<'a> Look<'a> {
    // Whether the class of the reduction settles too, with each of the tokens behind with which the line's list does.
    fn has_class(&self, row: &Row, line: &Line, reduction: &Reduction) -> bool
        requires { IsSound self.now }
        ensures { IsTrue result → (b : Tok) → In line.now.settled b → In reduction.now.tokens b
            → HasLine self.now.lists.now row.now b (grammar_symbol.Class reduction.now.class ∷ []) }
    {
        let behind = both(line.settled, reduction.tokens);
        if behind == 0 {
            return true;
        }
        match self.lists.find(Sym::Class(reduction.class), 0) {
            Some(list) => has_all_line(&row.lines, list, behind),
            None => false,
        }
    }

    // Whether what follows from the reduction is there, where the line's list has so many symbols.
    fn is_followed(&self, row: &Row, line: &Line, size: usize, reduction: &Reduction) -> bool
        requires { IsSound self.now }
        ensures { IsTrue result → IsFollowed self.now.lists.now row.now line.now size reduction.now }
    {
        if reduction.long < size {
            true
        } else if reduction.long == size {
            self.has_class(row, line, reduction)
        } else {
            leads_out(line, reduction)
        }
    }

    fn all_followed(&self, row: &Row, line: &Line, size: usize, reductions: &[Reduction]) -> bool
        requires { IsSound self.now }
        ensures { IsTrue result → (x : Reduction) → Contains reductions.now x
            → IsFollowed self.now.lists.now row.now line.now size x }
    {
        reductions
            .iter()
            .all(|reduction| self.is_followed(row, line, size, reduction))
    }

    // Whether reductions of the line's whole list settle too, and what leads out of it is a sum.
    fn is_line_closed(&self, row: &Row, line: &Line) -> bool
        requires { IsSound self.now }
        ensures { IsTrue result → IsLineClosed (automaton self.now) self.now.lists.now row.now line.now }
    {
        let state = match line.behind {
            Some(state) => state,
            None => return true,
        };
        let ways = match self.ways_at(state) {
            Some(ways) => ways,
            None => return false,
        };
        if !is_within(both(line.settled, ways.shifts), line.sums) {
            return false;
        }
        let size = self.lists.get(line.list).len();
        self.all_followed(row, line, size, &ways.reductions)
    }

    /// Whether it is so of each of the row's lines.
    pub(crate) fn are_lines_closed(&self, row: &Row, lines: &[Line]) -> bool
        requires { IsSound self.now }
        ensures { IsTrue result → (l : Line) → Contains lines.now l → IsLineClosed (automaton self.now) self.now.lists.now row.now l }
    {
        lines.iter().all(|line| self.is_line_closed(row, line))
    }
}
