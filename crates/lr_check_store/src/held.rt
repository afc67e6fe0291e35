// Rows that grow.
ghost use Rattle.std.specs.Prelude.{◌≡◌, ◌⊎◌, OnOk, Some, IfSome, IfNone, IsTrue, Contains, slice_get};
ghost use Rattle.lr_check_rows.specs.declared.rows.Line.{Line};
ghost use Rattle.lr_check_store.specs.Store.{AreApart};
ghost use Rattle.lr_check_store.specs.Holding.{HasPlaces, HasLine, IsMerged};

use crate::sets::union;
use gg_base::NoMemory;
use lr_check_rows::{Line, Row};

/// The row has places with these tokens behind, too.
pub(crate) fn hold_places(row: &mut Row, set: u64)
    ensures { HasPlaces row.old row.new set }
{
    row.places = union(row.places, set);
}

// Whether the line stands there.
fn is_at(lines: &[Line], at: usize, list: usize) -> bool
    ensures { IsTrue result → (l : Line) × ((slice_get lines.now at ≡ Some l) × (l.list ≡ list)) }
{
    match lines.get(at) {
        Some(line) => line.list == list,
        None => false,
    }
}

fn position(lines: &[Line], list: usize) -> Option<usize>
    ensures some { IfSome result (λ n. (l : Line) × ((slice_get lines.now n ≡ Some l) × (l.list ≡ list))) }
    ensures none { IfNone result ((l : Line) → Contains lines.now l → l.list ≡ list → ⊥) }
{
    lines.iter().position(|line| line.list == list)
}

// Where the list's line stands: there, or anywhere.
fn line_of(lines: &[Line], at: usize, list: usize) -> Option<usize>
    ensures some { IfSome result (λ n. (l : Line) × ((slice_get lines.now n ≡ Some l) × (l.list ≡ list))) }
    ensures none { IfNone result ((l : Line) → Contains lines.now l → l.list ≡ list → ⊥) }
{
    if is_at(lines, at, list) {
        return Some(at);
    }
    position(lines, list)
}

// Both lines' tokens.
fn merged(held: Line, line: Line) -> Line
    ensures { IsMerged held line result }
{
    Line {
        list: line.list,
        behind: line.behind,
        settled: union(held.settled, line.settled),
        sums: union(held.sums, line.sums),
    }
}

/// The row has the line, too, which may stand at the number.
pub(crate) fn hold_line(row: &mut Row, at: usize, line: Line) -> Result<(), NoMemory>
    ensures line { OnOk result (HasLine row.old row.new line) }
    ensures apart { AreApart row.old.lines.items → OnOk result (AreApart row.new.lines.items) }
{
    match line_of(&row.lines, at, line.list) {
        Some(at) => {
            row.lines[at] = merged(row.lines[at], line);
            Ok(())
        }
        None => {
            row.lines.push(line)?;
            Ok(())
        }
    }
}
