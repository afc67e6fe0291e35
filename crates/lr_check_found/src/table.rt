// Sets of plain numbers, and a table that grows.
ghost use Rattle.std.specs.Prelude.{◌≡◌, ◌++◌, ◌∷◌, [], ℕ, Contains, slice_get, slice_index_or, false, IfOk, IfSome};
ghost use Rattle.std.specs.Prelude.{IsTrue, OnOk, Some, None};

use crate::lists::Cell;
use gg_base::NoMemory;
use indexmap::IndexSet;

/// The number of the cell, if it is there.
pub fn find_cell(cells: &IndexSet<Cell>, cell: Cell) -> Option<usize>
    ensures { IfSome result (λ n. slice_get cells.now.keys n ≡ Some cell) }
{
    let number = cells.get_index_of(&cell)?;
    let found = cells.get_index(number)?;
    if *found == cell { Some(number) } else { None }
}

/// The number of the cell, and whether it is new.
pub fn insert_cell(cells: &mut IndexSet<Cell>, cell: Cell) -> Result<(usize, bool), NoMemory>
    ensures there { IfOk result (λ r. slice_get cells.new.keys r.0 ≡ Some cell) }
    ensures new { IfOk result (λ r. IsTrue r.1 → cells.new.keys ≡ cells.old.keys ++ cell ∷ []) }
    ensures absent { IfOk result (λ r. IsTrue r.1 → Contains cells.old.keys cell → ⊥) }
    ensures old { IfOk result (λ r. r.1 ≡ false → cells.new.keys ≡ cells.old.keys) }
{
    Ok(cells.insert_full(cell)?)
}

/// Whether the number is there.
pub fn has_number(numbers: &[usize], number: usize) -> bool
    ensures there { IsTrue result → Contains numbers.now number }
    ensures each { (n : ℕ) → Contains numbers.now n → n ≡ number → IsTrue result }
{
    numbers.iter().any(|other| *other == number)
}

/// The number is held at the place in the table, which grows to there.
pub fn put(numbers: &mut Vec<Option<usize>>, at: usize, number: usize) -> Result<(), NoMemory>
    ensures there { OnOk result (slice_index_or numbers.new.items at None ≡ Some number) }
    ensures others { OnOk result ((i : ℕ) → (i ≡ at → ⊥) → slice_index_or numbers.new.items i None
        ≡ slice_index_or numbers.old.items i None) }
{
    if at < numbers.len() {
        numbers[at] = Some(number);
    } else {
        numbers.resize(at, None)?;
        numbers.push(Some(number))?;
    }
    Ok(())
}
