// Locals by how often they are used.
ghost use Rattle.std.specs.Prelude.{ℕ, List};

use crate::choice::HomeChoice;
use gg_base::NoMemory;
use indexmap::IndexMap;
use std::alloc::Global;
use tree_core::{Att, Leaf, Tok, TreeFn, TreeItem};

/// What a use counts in so many loops: each is taken to make ten turns. More loops count no more.
const WEIGHTS: [u64; 7] = [1, 10, 100, 1_000, 10_000, 100_000, 1_000_000];

/// The locals and temporaries of a function that its trees use, those first that are used most. A use in a loop counts for ten.
pub struct MostUsed;

impl HomeChoice for MostUsed {
    ghost chooses = { λ _ f chosen. Unit {0} };

    fn choose(&self, alloc: Global, function: &TreeFn) -> Result<Vec<u32>, NoMemory> {
        let uses = uses_of(alloc, function)?;
        let mut used: Vec<u32> = Vec::new(alloc);
        for local in 0..function.locals {
            if count_at(&uses, local) > 0 {
                used.push(local)?;
            }
        }
        used.sort_by_key(|local: &u32| u64::MAX - count_at(&uses, *local))?;
        Ok(used)
    }
}

fn count_at(uses: &[u64], local: u32) -> u64 {
    uses.get(local as usize).copied().unwrap_or(0)
}

// What the uses of each local count.
fn uses_of(alloc: Global, function: &TreeFn) -> Result<Vec<u64>, NoMemory> {
    let items = function.items.as_slice();
    let weights = weights_of(alloc, items)?;
    let mut uses = zeros(alloc, function.locals as usize)?;
    for (item, weight) in items.iter().zip(weights.iter()) {
        if let TreeItem::Root(leaves) = item {
            for leaf in leaves.as_slice() {
                count(&mut uses, *leaf, *weight);
            }
        }
    }
    Ok(uses)
}

fn zeros(alloc: Global, length: usize) -> Result<Vec<u64>, NoMemory> {
    let mut zeros = Vec::with_capacity(alloc, length)?;
    for _ in 0..length {
        zeros.push(0)?;
    }
    Ok(zeros)
}

fn count(uses: &mut Vec<u64>, leaf: Leaf, weight: u64) {
    if let (Tok::Loc | Tok::Save, Att::Slot(local)) = (leaf.tok, leaf.att) {
        if let Some(old) = uses.get_mut(local as usize) {
            *old = old.saturating_add(weight);
        }
    }
}

// What a use counts in each item.
fn weights_of(alloc: Global, items: &[TreeItem]) -> Result<Vec<u64>, NoMemory> {
    let ends = loop_ends(alloc, items)?;
    let mut closing = zeros(alloc, items.len())?;
    let mut weights = Vec::with_capacity(alloc, items.len())?;
    let mut depth: u64 = 0;
    for place in 0..items.len() {
        if let Some(Some(end)) = ends.get(place) {
            depth = depth.saturating_add(1);
            if let Some(closed) = closing.get_mut(*end) {
                *closed = closed.saturating_add(1);
            }
        }
        weights.push(weight_in(depth))?;
        depth = depth.saturating_sub(closing.get(place).copied().unwrap_or(0));
    }
    Ok(weights)
}

fn weight_in(depth: u64) -> u64 {
    WEIGHTS.get(depth as usize).copied().unwrap_or(1_000_000)
}

// Where an item is a label to which a later one goes back, the last such item: a loop reaches so far.
fn loop_ends(alloc: Global, items: &[TreeItem]) -> Result<Vec<Option<usize>>, NoMemory> {
    let mut labels: IndexMap<u32, usize> = IndexMap::new(alloc);
    let mut ends: Vec<Option<usize>> = Vec::with_capacity(alloc, items.len())?;
    for (place, item) in items.iter().enumerate() {
        ends.push(None)?;
        match item {
            TreeItem::Label(label) => {
                labels.insert(*label, place)?;
            }
            TreeItem::Root(leaves) => {
                for leaf in leaves.as_slice() {
                    if let Some(begin) = target_of(*leaf).and_then(|label| labels
                        .get(&label)
                        .copied())
                    {
                        if let Some(end) = ends.get_mut(begin) {
                            *end = Some(place);
                        }
                    }
                }
            }
        }
    }
    Ok(ends)
}

fn target_of(leaf: Leaf) -> Option<u32> {
    match leaf.att {
        Att::Branch { label, .. } | Att::Label(label) => Some(label),
        _ => None,
    }
}
