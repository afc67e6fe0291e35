// Whether some typed statement stops the parse by the tables.
ghost use Rattle.std.specs.Prelude.{◌≤◌, IfOk, IfSome, IfNone, length};
ghost use Rattle.lr_check_sets.specs.Bound.{HasClasses};
ghost use Rattle.lr_check_sets.specs.Faults.{NoFault};
ghost use Rattle.lr_check_sets.specs.Table.{productions, automaton_of};
ghost use Rattle.lr_check_flaws.specs.Flaws.{IsFlaw};
ghost use Rattle.lr_check_complete.specs.Sets.{IsComplete};
ghost use Rattle.lr_check_decided.specs.Decided.{IsSo};

use crate::circles::find_circle;
use crate::gaps::{find_dead, find_gap};
use gg_base::NoMemory;
use lr_check_complete::complete;
use lr_check_flaws::Flaw;
use lr_check_found::{Found, Stop};
use lr_check_masks::mask_check;
use lr_check_sets::tables_meet_laws;
use lr_tables::Tables;
use std::alloc::Global;

/// There is no fault, and so many sums; or what is found of places and sums, all of them, has the flaw; or
/// there are more than `SUMMARY_LIMIT` sums.
#[derive(Drop)]
pub enum Decision {
    Fine(usize),
    Faulty(Found, Flaw),
    Full,
}

/// What is wrong with what was found, all of the sets, if anything: a gap before a dead list, and that
/// before a circle, each the first by number.
pub fn find_flaw(alloc: Global, tables: &Tables, found: &Found) -> Result<Option<Flaw>, NoMemory>
    requires complete { IsComplete (automaton_of tables.now) found.now }
    requires classes { HasClasses (productions tables.now.content.rules) (length tables.now.content.classes) }
    requires few { length tables.now.content.classes ≤ 64 }
    ensures some { IfOk result (λ o. IfSome o (λ w. IsFlaw (automaton_of tables.now) found.now w)) }
    ensures none { IfOk result (λ o. IfNone o (NoFault (automaton_of tables.now))) }
{
    if let Some(place) = find_gap(tables, found) {
        return Ok(Some(Flaw::Gap(place)));
    }
    if let Some(settling) = find_dead(tables, found) {
        return Ok(Some(Flaw::Dead(settling)));
    }
    find_circle(alloc, tables, found)
}

// Decides it by all that is found, one place and one list at a time: so a flaw has its sample.
fn decided_by_places(alloc: Global, tables: &Tables) -> Result<Decision, NoMemory>
    ensures { IfOk result (λ d. IsSo (automaton_of tables.now) d) }
{
    tables.is_numbered();
    tables.description().is_valid();
    tables_meet_laws();
    let found = match complete(alloc, tables) {
        Ok(found) => found,
        Err(Stop::Full) => return Ok(Decision::Full),
        Err(Stop::NoMemory) => return Err(NoMemory),
    };
    match find_flaw(alloc, tables, &found)? {
        Some(flaw) => Ok(Decision::Faulty(found, flaw)),
        None => Ok(Decision::Fine(found.tuples())),
    }
}

/// Decides it; no memory is the only other answer. What sets of tokens show to have no fault isn't looked at once more.
pub fn decide(alloc: Global, tables: &Tables) -> Result<Decision, NoMemory>
    ensures { IfOk result (λ d. IsSo (automaton_of tables.now) d) }
{
    let shown = mask_check(alloc, tables)?;
    match shown {
        Some(tuples) => Ok(Decision::Fine(tuples)),
        None => decided_by_places(alloc, tables),
    }
}
