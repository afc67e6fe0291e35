// The item sets of a description.
use desk_page::put_wrapped;
use desk_tables::Drawing;
use gg_base::NoMemory;
use lr_tables::Tables;
use std::alloc::Global;

/// Adds each item set with where it leads, and how many rules and item sets there are.
pub fn put_item_sets(alloc: Global, tables: &Tables, told: &mut String) -> Result<(), NoMemory> {
    let mut drawn = String::new(alloc);
    Drawing::new(alloc, tables).put_sets(&mut drawn)?;
    for line in drawn.lines() {
        put_wrapped(told, line, "  |         ")?;
    }
    let rules = tables.description().rules().len();
    writeln!(told, "{rules} rules, {} item sets", tables.states())?;
    Ok(())
}
