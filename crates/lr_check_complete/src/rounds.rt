// Rounds add what follows, until nothing does.
ghost use Rattle.std.specs.Prelude.{◌≡◌, ◌≤◌, IfOk, OnOk, IfErr, IsTrue};
ghost use Rattle.gg_base.specs.declared.limits.TheConstants.{SUMMARY_LIMIT};
ghost use Rattle.lr_check_found.specs.lr_check_sets.specs.Table.{automaton_of};
ghost use Rattle.lr_check_found.specs.declared.adding.Stop.TheVariants.{Full};
ghost use Rattle.lr_check_found.specs.Count.{HasMore};
ghost use Rattle.lr_check_found.specs.Items.{IsItem};
ghost use Rattle.lr_check_found.specs.Sound.{IsFound};
ghost use Rattle.lr_check_complete.specs.Sets.{IsComplete};

use crate::lacking::lacking;
use crate::look::Look;
use crate::window::Window;
use lr_check_found::{Found, Item, Stop};
use lr_check_plan::planned;
use lr_tables::Tables;
use std::alloc::Global;

// What the next round need not look at together, when so many items came of this one: none is the sign
// to look at all.
fn next_window(found: &Found, items: usize) -> Window {
    if items == 0 {
        return Window {
            places: 0,
            settlings: 0,
        };
    }
    Window {
        places: found.places().len(),
        settlings: found.settlings().len(),
    }
}

// Whether all was looked at and nothing came of it.
fn is_done(items: usize, window: Window) -> bool
    ensures items { IsTrue result → items ≡ 0 }
    ensures all { IsTrue result → window.settlings ≡ 0 }
{
    items == 0 && window.settlings == 0
}

// Whether the item follows from what was found of the tables.
fn follows<'x>(tables: &'x Tables, found: &'x Found, item: &Item) -> bool
    requires { IsFound (automaton_of tables.now) found.now }
    ensures { IsTrue result → IsItem (automaton_of tables.now) found.now item.now }
{
    let look = Look {
        tables,
        found,
        window: Window {
            places: 0,
            settlings: 0,
        },
        sheet: None,
    };
    look.follows(item)
}

// Adds the item, if it follows.
fn add_if(alloc: Global, tables: &Tables, item: Item, found: &mut Found) -> Result<(), Stop>
    requires found { IsFound (automaton_of tables.now) found.old }
    requires room { found.old.tuples ≤ SUMMARY_LIMIT }
    ensures found { OnOk result (IsFound (automaton_of tables.now) found.new) }
    ensures room { OnOk result (found.new.tuples ≤ SUMMARY_LIMIT) }
    ensures full { IfErr result (λ e. e ≡ Full → HasMore (automaton_of tables.now) SUMMARY_LIMIT) }
{
    if !follows(tables, found, &item) {
        return Ok(());
    }
    found.add_all(alloc, tables, &[item])
}

// What is found as planned.
fn by_plan(alloc: Global, tables: &Tables) -> Result<Found, Stop>
    ensures found { IfOk result (λ f. IsFound (automaton_of tables.now) f) }
    ensures room { IfOk result (λ f. f.tuples ≤ SUMMARY_LIMIT) }
    ensures full { IfErr result (λ e. e ≡ Full → HasMore (automaton_of tables.now) SUMMARY_LIMIT) }
{
    let mut found = Found::new(alloc)?;
    let items = planned(alloc, tables)?;
    for item in items.iter() {
        add_if(alloc, tables, *item, &mut found)?;
    }
    Ok(found)
}

/// All places and sums of the tables; or that there are more than `SUMMARY_LIMIT` sums, or no memory.
pub fn complete(alloc: Global, tables: &Tables) -> Result<Found, Stop>
    // All of the sets is found, and nothing else.
    ensures complete { IfOk result (λ f. IsComplete (automaton_of tables.now) f) }
    // The set of sums has no more tuples than are found, and these are no more than `SUMMARY_LIMIT`.
    ensures few { IfOk result (λ f. ¬ HasMore (automaton_of tables.now) f.tuples) }
    ensures within { IfOk result (λ f. f.tuples ≤ SUMMARY_LIMIT) }
    // More than `SUMMARY_LIMIT` tuples are in the set of sums.
    ensures full { IfErr result (λ e. e ≡ Full → HasMore (automaton_of tables.now) SUMMARY_LIMIT) }
{
    let mut found = by_plan(alloc, tables)?;
    let mut window = Window {
        places: 0,
        settlings: 0,
    };
    for _round in 0..u64::MAX {
        let items = lacking(alloc, tables, &found, window)?;
        if is_done(items.len(), window) {
            return Ok(found);
        }
        window = next_window(&found, items.len());
        found.add_all(alloc, tables, &items)?;
    }
    Err(Stop::NoMemory)
}
