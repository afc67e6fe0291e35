// The rows of the tables: for each item set where each symbol leads, and what may be done at each token.
ghost use Rattle.std.specs.Prelude.{◌≡◌, ◌≤◌, ◌+◌, length, map, IfOk};
ghost use Rattle.lr_tables.specs.Grammar.{IsShort};
ghost use Rattle.lr_tables.specs.Sets.{chains};
ghost use Rattle.lr_tables.specs.Numbering.{kernels};
ghost use Rattle.lr_tables.specs.Rows.{target_of, targets_of, cell, reduction, reductions, actions_of, all_follows, row_of};

use crate::follow::{END, begin_edges, end_edges, follow};
use crate::item::{Item, TOKENS};
use crate::marks::{ClassSet, Edge};
use crate::numbering::{BuildFault, number_item_sets};
use crate::sets::{chains, item_set, moved};
use crate::types::{Choice, Choices, Row, State};
use gg_base::NoMemory;
use indexmap::IndexSet;
use md_reader::Rule;
use std::alloc::Global;

// The number of the item set with this kernel.
fn target_of(sets: &IndexSet<Vec<Item>>, kernel: &[Item]) -> Option<State>
    requires { length sets.now.keys ≤ MAX_STATES }
    ensures { result ≡ target_of (kernels sets.now.keys) kernel.now }
{
    if kernel.is_empty() {
        return None;
    }
    match sets.get_index_of(kernel) {
        Some(number) => Some(State::of(number as u16)),
        None => None,
    }
}

// Where each symbol leads.
fn targets(
    alloc: Global,
    rules: &[Rule],
    stmt: u16,
    classes: usize,
    items: &[Item],
    sets: &IndexSet<Vec<Item>>,
) -> Result<Vec<Option<State>>, NoMemory>
    requires short { IsShort rules.now }
    requires few { classes ≤ 64 }
    requires states { length sets.now.keys ≤ MAX_STATES }
    ensures { IfOk result (λ targets. targets.items ≡ targets_of rules.now stmt items.now (kernels sets.now.keys) (40 + classes)) }
{
    let mut targets = Vec::new(alloc);
    for symbol in 0..TOKENS + classes {
        let kernel = moved(alloc, rules, stmt, items, symbol)?;
        targets.push(target_of(sets, kernel.as_slice()))?;
    }
    Ok(targets)
}

// The rule of a complete item whose class the token may follow.
fn reduction(rules: &[Rule], follow: &ClassSet, item: Item) -> Option<u16>
    ensures { result ≡ reduction rules.now follow.now item }
{
    let number = item.rule?;
    let rule = rules.get(number as usize)?;
    if item.dot as usize == rule.right.as_slice().len() && follow.contains(rule.left) {
        Some(number)
    } else {
        None
    }
}

// The reductions at a token: in a kernel the longer rules stand first, then those of lower places.
fn reductions(
    alloc: Global,
    rules: &[Rule],
    follow: &ClassSet,
    kernel: &[Item],
) -> Result<Vec<Choice>, NoMemory>
    ensures { IfOk result (λ choices. choices.items ≡ reductions rules.now follow.now kernel.now) }
{
    let choices = kernel
        .iter()
        .filter_map(|item| reduction(rules, follow, *item).map(Choice::Reduce))
        .collect(alloc)?;
    Ok(choices)
}

// What may be done at a token: the shift alone, or the reductions.
fn cell(
    alloc: Global,
    rules: &[Rule],
    follow: &ClassSet,
    kernel: &[Item],
    token: usize,
    target: Option<State>,
) -> Result<Vec<Choice>, NoMemory>
    ensures { IfOk result (λ choices. choices.items ≡ cell token target (reductions rules.now follow.now kernel.now)) }
{
    match target {
        Some(_) if token == END => Ok(vec![in alloc; Choice::Accept]?),
        Some(state) => Ok(vec![in alloc; Choice::Shift(state)]?),
        None => reductions(alloc, rules, follow, kernel),
    }
}

fn actions(
    alloc: Global,
    rules: &[Rule],
    follows: &[ClassSet],
    kernel: &[Item],
    targets: &[Option<State>],
) -> Result<Vec<Choices>, NoMemory>
    requires wide { 40 ≤ length targets.now }
    requires follows { length follows.now ≡ 40 }
    ensures { IfOk result (λ actions. actions.items ≡ actions_of rules.now follows.now kernel.now targets.now 40) }
{
    let mut actions = Vec::new(alloc);
    for token in 0..TOKENS {
        let choices = cell(alloc, rules, &follows[token], kernel, token, targets[token])?;
        actions.push(Choices::from_vec(choices))?;
    }
    Ok(actions)
}

// The row of the item set with this kernel.
fn row_of(
    alloc: Global,
    rules: &[Rule],
    stmt: u16,
    classes: usize,
    edges: &[Edge],
    follows: &[ClassSet],
    sets: &IndexSet<Vec<Item>>,
    kernel: &[Item],
) -> Result<Row, NoMemory>
    requires many { length rules.now ≤ 1000 }
    requires short { IsShort rules.now }
    requires few { classes ≤ 64 }
    requires states { length sets.now.keys ≤ MAX_STATES }
    requires chained { edges.now ≡ chains rules.now }
    requires follows { follows.now ≡ all_follows rules.now stmt classes 40 }
    ensures { IfOk result (λ row. row ≡ row_of rules.now stmt classes (kernels sets.now.keys) kernel.now) }
{
    let items = item_set(alloc, rules, stmt, classes, edges, kernel)?;
    let target_list = targets(alloc, rules, stmt, classes, items.as_slice(), sets)?;
    let action_list = actions(alloc, rules, follows, kernel, target_list.as_slice())?;
    Ok(Row::new(target_list, action_list))
}

// For each token the classes behind which it may come.
fn all_follows(
    alloc: Global,
    rules: &[Rule],
    stmt: u16,
    classes: usize,
) -> Result<Vec<ClassSet>, NoMemory>
    ensures { IfOk result (λ follows. follows.items ≡ all_follows rules.now stmt classes 40) }
{
    let begins_at = begin_edges(alloc, rules)?;
    let ends_at = end_edges(alloc, rules)?;
    let mut follows = Vec::new(alloc);
    for token in 0..TOKENS {
        follows.push(follow(
            alloc,
            rules,
            stmt,
            classes,
            begins_at.as_slice(),
            ends_at.as_slice(),
            token,
        )?)?;
    }
    Ok(follows)
}

// The row of each item set.
fn rows_of(
    alloc: Global,
    rules: &[Rule],
    stmt: u16,
    classes: usize,
    edges: &[Edge],
    sets: &IndexSet<Vec<Item>>,
) -> Result<Vec<Row>, NoMemory>
    requires many { length rules.now ≤ 1000 }
    requires short { IsShort rules.now }
    requires few { classes ≤ 64 }
    requires states { length sets.now.keys ≤ MAX_STATES }
    requires chained { edges.now ≡ chains rules.now }
    ensures { IfOk result (λ rows. rows.items ≡ map (row_of rules.now stmt classes (kernels sets.now.keys)) (kernels sets.now.keys)) }
{
    let follows = all_follows(alloc, rules, stmt, classes)?;
    let mut rows = Vec::new(alloc);
    for kernel in sets.as_slice() {
        let row = row_of(
            alloc,
            rules,
            stmt,
            classes,
            edges,
            follows.as_slice(),
            sets,
            kernel.as_slice(),
        )?;
        rows.push(row)?;
    }
    Ok(rows)
}

ghost use Rattle.lr_tables.specs.Numbering.{IsOver};
ghost use Rattle.lr_tables.specs.Built.{IsRows};
ghost use Rattle.std.specs.Prelude.{Err};
ghost use Rattle.lr_tables.specs.declared.numbering.TheConstants.{MAX_STATES};

/// The rows of all item sets, numbered as first found.
pub fn all_rows(
    alloc: Global,
    rules: &[Rule],
    stmt: u16,
    classes: usize,
) -> Result<Vec<Row>, BuildFault>
    requires many { length rules.now ≤ 1000 }
    requires short { IsShort rules.now }
    requires few { classes ≤ 64 }
    ensures rows { IfOk result (λ rows. IsRows rules.now stmt classes rows.items) }
    ensures full { result ≡ Err BuildFault.TablesFull → IsOver rules.now stmt classes }
{
    let edges = chains(alloc, rules)?;
    let sets = number_item_sets(alloc, rules, stmt, classes, edges.as_slice())?;
    let rows = rows_of(alloc, rules, stmt, classes, edges.as_slice(), &sets)?;
    Ok(rows)
}
