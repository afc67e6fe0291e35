// Item sets. A set is known by its kernel, the start or the items with a dot behind a symbol: first
// those with more symbols before the dot, then by the rule's place.
ghost use Rattle.std.specs.Prelude.{◌≡◌, ◌≤◌, length, IfOk, if◌then◌else◌, Some, None};
ghost use Rattle.lr_tables.specs.Grammar.{IsShort};
ghost use Rattle.lr_tables.specs.Items.{advanced};
ghost use Rattle.lr_tables.specs.Sets.{edge_to, first_edge, chains, marked_before, marked_all, opened_from, item_set, stands_before, moved};

use crate::item::{Item, next_symbol, symbol_number};
use crate::marks::{ClassSet, Edge, spread_all};
use gg_base::NoMemory;
use md_reader::{Rule, Sym};
use std::alloc::Global;

/// The edge from a class to the symbol, if that is a class.
pub fn edge_to(from: u16, symbol: Option<Sym>) -> Option<Edge>
    ensures { result ≡ edge_to from symbol }
{
    match symbol {
        Some(Sym::Class(class)) => Some(Edge { from, to: class }),
        Some(Sym::Tok(_)) => None,
        None => None,
    }
}

// From a rule's class to the class that its right side begins with.
fn first_edge(rule: &Rule) -> Option<Edge>
    ensures { result ≡ first_edge rule.now }
{
    edge_to(rule.left, rule.right.as_slice().first().copied())
}

/// From each class to those that it may begin with.
pub fn chains(alloc: Global, rules: &[Rule]) -> Result<Vec<Edge>, NoMemory>
    ensures { IfOk result (λ edges. edges.items ≡ chains rules.now) }
{
    let edges = rules.iter().filter_map(first_edge).collect(alloc)?;
    Ok(edges)
}

/// Marks the symbol if it is a class.
pub fn mark_before(next: Option<Sym>, set: &mut ClassSet)
    ensures { set.new ≡ marked_before next set.old }
{
    match next {
        Some(Sym::Class(class)) => set.insert(class),
        Some(Sym::Tok(_)) => {}
        None => {}
    }
}

// Marks the classes behind the dots.
fn mark_all(rules: &[Rule], stmt: u16, kernel: &[Item], set: &mut ClassSet)
    ensures { set.new ≡ marked_all rules.now stmt kernel.now set.old }
{
    for item in kernel {
        mark_before(next_symbol(rules, stmt, *item), set);
    }
}

// Adds the rules of the marked classes with the dot first.
fn open(rules: &[Rule], set: &ClassSet, items: &mut Vec<Item>) -> Result<(), NoMemory>
    requires { length rules.now ≤ 1000 }
    ensures { IfOk result (λ _. items.new.items ≡ items.old.items ++ opened_from 0 rules.now set.now) }
{
    let opened = (0..rules.len() as u16)
        .zip(rules)
        .filter(|(_, rule)| set.contains(rule.left))
        .map(|(number, _)| Item {
            rule: Some(number),
            dot: 0,
        });
    items.extend(opened)?;
    Ok(())
}

ghost use Rattle.std.specs.Prelude.{◌++◌};

/// The kernel and all that it opens.
pub fn item_set(
    alloc: Global,
    rules: &[Rule],
    stmt: u16,
    classes: usize,
    edges: &[Edge],
    kernel: &[Item],
) -> Result<Vec<Item>, NoMemory>
    requires { length rules.now ≤ 1000 }
    ensures { IfOk result (λ items. items.items ≡ item_set rules.now stmt classes edges.now kernel.now) }
{
    let mut set = ClassSet::empty(alloc, classes)?;
    mark_all(rules, stmt, kernel, &mut set);
    spread_all(edges, classes, &mut set);
    let mut items = Vec::new(alloc);
    items.extend_from_slice(kernel)?;
    open(rules, &set, &mut items)?;
    Ok(items)
}

// Whether the symbol with this number stands behind the dot.
fn stands_before(rules: &[Rule], stmt: u16, item: Item, symbol: usize) -> bool
    ensures { result ≡ stands_before rules.now stmt symbol item }
{
    match next_symbol(rules, stmt, item) {
        Some(next) => symbol_number(next) == symbol,
        None => false,
    }
}

// The item with its dot behind one more symbol, if that has this number.
fn stepped(rules: &[Rule], stmt: u16, item: Item, symbol: usize) -> Option<Item>
    requires { IsShort rules.now }
    ensures { result ≡ (if stands_before rules.now stmt symbol item then Some (advanced item) else None) }
{
    if stands_before(rules, stmt, item, symbol) {
        Some(Item {
            rule: item.rule,
            dot: item.dot + 1,
        })
    } else {
        None
    }
}

/// The kernel behind the symbol with this number.
pub fn moved(
    alloc: Global,
    rules: &[Rule],
    stmt: u16,
    items: &[Item],
    symbol: usize,
) -> Result<Vec<Item>, NoMemory>
    requires { IsShort rules.now }
    ensures { IfOk result (λ kernel. kernel.items ≡ moved rules.now stmt symbol items.now) }
{
    let kernel = items
        .iter()
        .filter_map(|item| stepped(rules, stmt, *item, symbol))
        .collect(alloc)?;
    Ok(kernel)
}
