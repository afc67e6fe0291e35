// Rows as they are packed, and their entries.
ghost use Rattle.std.specs.Prelude.{◌≤◌, length};
ghost use Rattle.pack_rows.specs.Packed.{HasEntry, IsEntry};
ghost use Rattle.pack_rows.specs.Places.{IsRising, IsPlaceOf};

use gg_base::ListOf;

/// Rows of one length, packed.
#[derive(Drop)]
pub struct Packed {
    /// For each row the entry that stands in it most often, the smaller where two stand equally often, and 0 where it is empty.
    pub defaults: ListOf<u16>,
    /// For each row the place of its first exception, and behind the last row how many exceptions there are.
    pub starts: ListOf<u64>,
    /// The columns of the exceptions, which are the entries that aren't their row's default: row by row, rising in each.
    pub columns: ListOf<u32>,
    /// The exceptions themselves.
    pub entries: ListOf<u16>,
}

// The place of a column among those that stand from one place up to another, and rise there.
fn place_of(columns: &[u32], from: usize, to: usize, column: u32) -> Option<usize>
    requires ordered { from ≤ to }
    requires within { to ≤ length columns.now }
    requires rising { IsRising columns.now from to }
    ensures { IsPlaceOf columns.now from to column result }
{
    match columns[from..to].binary_search(&column) {
        Ok(place) => Some(from + place),
        Err(_) => None,
    }
}

impl Packed {
    /// The entry of a row at a column, both of them in the rows that were packed. The column is looked for by halving.
    pub fn at(&self, row: usize, column: usize) -> u16
        requires { HasEntry self.now row column }
        ensures { IsEntry self.now row column result }
    {
        let from = self.starts.as_slice()[row] as usize;
        let to = self.starts.as_slice()[row + 1] as usize;
        match place_of(self.columns.as_slice(), from, to, column as u32) {
            Some(place) => self.entries.as_slice()[place],
            None => self.defaults.as_slice()[row],
        }
    }
}
