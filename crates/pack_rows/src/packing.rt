// Packing rows.
ghost use Rattle.std.specs.Prelude.{◌≡◌, ◌<◌, ◌^◌, ◌++◌, length, IfOk};
ghost use Rattle.pack_rows.specs.Rows.{count, oftener, default_of, columns_from, other_than};
ghost use Rattle.pack_rows.specs.Packed.{AreRows, packed, rows_in};

use crate::packed::Packed;
use gg_base::{ListOf, NoMemory};
use std::alloc::Global;

// How often an entry stands in a row.
fn count(row: &[u16], entry: u16) -> usize
    ensures { result ≡ count row.now entry }
{
    row.iter().filter(|other| **other == entry).count()
}

// Of two entries the one that stands in the row more often, or the smaller one where both stand equally often.
fn oftener(row: &[u16], one: u16, other: u16) -> u16
    ensures { result ≡ oftener row.now one other }
{
    if one == other {
        return one;
    }
    let ones = count(row, one);
    let others = count(row, other);
    if ones < others || (ones == others && other < one) {
        other
    } else {
        one
    }
}

// The entry that stands in a row most often.
fn default_of(row: &[u16]) -> u16
    ensures { result ≡ default_of row.now }
{
    let mut best = match row.first() {
        Some(entry) => *entry,
        None => 0,
    };
    for entry in row {
        best = oftener(row, best, *entry);
    }
    best
}

// A row's exceptions, behind those that stand there.
fn push_exceptions(
    row: &[u16],
    default: u16,
    columns: &mut Vec<u32>,
    entries: &mut Vec<u16>,
) -> Result<(), NoMemory>
    requires { length row.now < 2 ^ 32 }
    ensures columns { IfOk result (λ _. columns.new.items ≡ columns.old.items ++ columns_from default 0 row.now) }
    ensures entries { IfOk result (λ _. entries.new.items ≡ entries.old.items ++ other_than default row.now) }
{
    for (column, entry) in row.iter().enumerate() {
        if *entry != default {
            columns.push(column as u32)?;
            entries.push(*entry)?;
        }
    }
    Ok(())
}

/// The rows, packed: each row's most frequent entry, and its other entries with their columns.
pub fn pack(alloc: Global, rows: &[Vec<u16>]) -> Result<Packed, NoMemory>
    requires { AreRows (rows_in rows.now) }
    ensures { IfOk result (λ p. p ≡ packed (rows_in rows.now)) }
{
    let mut defaults = Vec::new(alloc);
    let mut starts = Vec::new(alloc);
    let mut columns = Vec::new(alloc);
    let mut entries = Vec::new(alloc);
    for items in rows {
        let row = items.as_slice();
        let default = default_of(row);
        defaults.push(default)?;
        starts.push(entries.len() as u64)?;
        push_exceptions(row, default, &mut columns, &mut entries)?;
    }
    starts.push(entries.len() as u64)?;
    Ok(Packed {
        defaults: ListOf::from_vec(defaults),
        starts: ListOf::from_vec(starts),
        columns: ListOf::from_vec(columns),
        entries: ListOf::from_vec(entries),
    })
}
