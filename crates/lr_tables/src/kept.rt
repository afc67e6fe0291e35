// The rows of the tables as they are kept: packed entries, and each state's own lists of candidates.
ghost use Rattle.std.specs.Prelude.{◌≡◌, ◌≤◌, Err, length, map, IfOk, OnOk};
ghost use Rattle.std.specs.List.{All};
ghost use Rattle.lr_tables.specs.Grammar.{IsShort};
ghost use Rattle.lr_tables.specs.Numbering.{IsOver};
ghost use Rattle.lr_tables.specs.Entries.{place_of, with_list, own_lists, action_entry, goto_entry, target_of_entry, IsBelow, AreEven};
ghost use Rattle.lr_tables.specs.Kept.{IsKept, AreTables};

use crate::numbering::BuildFault;
use crate::rows::all_rows;
use crate::types::{Choice, Choices, Row, State};
use gg_base::{ListOf, NoMemory};
use md_reader::Rule;
use pack_rows::{Packed, pack};
use std::alloc::Global;

/// The different lists of candidates of a state, in order of first token.
pub type OwnLists = ListOf<Choices>;

/// Rows, kept: an entry for a token is the place of a list among the state's own lists, and one for a symbol is 0 where it leads nowhere,
/// else the number of the state to which it leads, plus 1.
#[derive(Drop)]
pub struct Kept {
    pub lists: Vec<OwnLists>,
    pub actions: Packed,
    pub gotos: Packed,
}

// The place of a list of candidates among lists.
fn place_of(lists: &[Choices], choices: &[Choice]) -> Option<usize>
    ensures { result ≡ place_of lists.now choices.now }
{
    lists.iter().position(|list| choices == list.as_slice())
}

// One list more, if it isn't there.
fn enter(alloc: Global, lists: &mut Vec<Choices>, choices: &[Choice]) -> Result<(), NoMemory>
    ensures { OnOk result (lists.new.items ≡ with_list lists.old.items choices.now) }
{
    match place_of(lists.as_slice(), choices) {
        Some(_) => Ok(()),
        None => {
            lists.push(Choices::copy_of(alloc, choices)?)?;
            Ok(())
        }
    }
}

// The different lists of a row, in order of first token.
fn own_lists(alloc: Global, actions: &[Choices]) -> Result<Vec<Choices>, NoMemory>
    ensures { IfOk result (λ lists. lists.items ≡ own_lists actions.now) }
{
    let mut lists = Vec::new(alloc);
    for choices in actions {
        enter(alloc, &mut lists, choices.as_slice())?;
    }
    Ok(lists)
}

// The entry for a list of candidates.
fn action_entry(lists: &[Choices], choices: &[Choice]) -> u16
    requires { length lists.now ≤ 40 }
    ensures { result ≡ action_entry lists.now choices.now }
{
    match place_of(lists, choices) {
        Some(place) => place as u16,
        None => 0,
    }
}

fn action_entries(
    alloc: Global,
    lists: &[Choices],
    actions: &[Choices],
) -> Result<Vec<u16>, NoMemory>
    requires { length lists.now ≤ 40 }
    ensures { IfOk result (λ entries. entries.items ≡ map (action_entry lists.now) actions.now) }
{
    let mut entries = Vec::new(alloc);
    for choices in actions {
        entries.push(action_entry(lists, choices.as_slice()))?;
    }
    Ok(entries)
}

// The entry for where a symbol leads.
fn goto_entry(target: Option<State>) -> u16
    requires { IsBelow target }
    ensures { result ≡ goto_entry target }
{
    match target {
        Some(state) => state.number() + 1,
        None => 0,
    }
}

/// Where a symbol leads by its entry.
pub fn target_of_entry(entry: u16) -> Option<State>
    ensures { result ≡ target_of_entry entry }
{
    if entry == 0 {
        None
    } else {
        Some(State::of(entry - 1))
    }
}

fn goto_entries(alloc: Global, targets: &[Option<State>]) -> Result<Vec<u16>, NoMemory>
    requires { All IsBelow targets.now }
    ensures { IfOk result (λ entries. entries.items ≡ map goto_entry targets.now) }
{
    let mut entries = Vec::new(alloc);
    for target in targets {
        entries.push(goto_entry(*target))?;
    }
    Ok(entries)
}

// Rows, kept.
fn keep(alloc: Global, rows: &[Row]) -> Result<Kept, NoMemory>
    requires { AreEven rows.now }
    ensures { IfOk result (λ k. IsKept rows.now k) }
{
    let mut lists = Vec::new(alloc);
    let mut actions = Vec::new(alloc);
    let mut gotos = Vec::new(alloc);
    for row in rows {
        let own = own_lists(alloc, row.actions())?;
        actions.push(action_entries(alloc, own.as_slice(), row.actions())?)?;
        gotos.push(goto_entries(alloc, row.targets())?)?;
        lists.push(OwnLists::from_vec(own))?;
    }
    let actions = pack(alloc, actions.as_slice())?;
    let gotos = pack(alloc, gotos.as_slice())?;
    Ok(Kept {
        lists,
        actions,
        gotos,
    })
}

/// The rows of all item sets, numbered as first found, as they are kept.
pub fn all_kept(
    alloc: Global,
    rules: &[Rule],
    stmt: u16,
    classes: usize,
) -> Result<Kept, BuildFault>
    requires many { length rules.now ≤ 1000 }
    requires short { IsShort rules.now }
    requires few { classes ≤ 64 }
    ensures kept { IfOk result (λ k. AreTables rules.now stmt classes k) }
    ensures full { result ≡ Err BuildFault.TablesFull → IsOver rules.now stmt classes }
{
    let rows = all_rows(alloc, rules, stmt, classes)?;
    let kept = keep(alloc, rows.as_slice())?;
    Ok(kept)
}
