// Whether a store of what was found shows that there is no fault.
ghost use Rattle.std.specs.Prelude.{IsTrue, IfOk, IfSome};
ghost use Rattle.lr_check_found.specs.lr_check_sets.specs.Table.{automaton_of};
ghost use Rattle.lr_check_closed.specs.Shown.{IsShown};
ghost use Rattle.lr_check_store.specs.Store.{IsSound};
ghost use Rattle.lr_check_masks.specs.Flawless.{IsFlawless};

use gg_base::NoMemory;
use lr_check_closed::Look;
use lr_check_store::{Store, stored};
use lr_tables::Tables;
use std::alloc::Global;

// Whether what is held is all of the sets, and has no fault.
fn is_flawless(alloc: Global, tables: &Tables, store: &Store) -> Result<bool, NoMemory>
    requires { IsSound (automaton_of tables.now) store.now }
    ensures { IfOk result (λ b. IsTrue b → IsShown (automaton_of tables.now) store.now.lists store.now.rows) }
{
    let look = Look {
        tables,
        lists: store.lists(),
        rows: store.rows(),
        ways: store.all_ways(),
    };
    if !look.is_closed(alloc)? {
        return Ok(false);
    }
    look.is_fine(alloc)
}

/// How many sums there are, where it is shown that the sets have no fault and no more than `SUMMARY_LIMIT` sums; none says nothing.
pub fn mask_check(alloc: Global, tables: &Tables) -> Result<Option<usize>, NoMemory>
    ensures { IfOk result (λ o. IfSome o (λ n. IsFlawless (automaton_of tables.now) n)) }
{
    let store = stored(alloc, tables)?;
    let tuples = match store.count() {
        Some(tuples) => tuples,
        None => return Ok(None),
    };
    if is_flawless(alloc, tables, &store)? {
        Ok(Some(tuples))
    } else {
        Ok(None)
    }
}
