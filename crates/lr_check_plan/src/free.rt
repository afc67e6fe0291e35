// What some answers take at each state.
use crate::masks::bit;
use crate::rows::{Free, Reduction};
use gg_base::NoMemory;
use lr_check_found::free_choices;
use lr_tables::{Choice, State, Tables};
use md_reader::Rule;
use std::alloc::Global;
use tree_core::tokens;

fn add_reduction(
    reductions: &mut Vec<Reduction>,
    long: usize,
    class: u16,
    tokens: u64,
) -> Result<(), NoMemory> {
    match reductions
        .iter()
        .position(|held| held.long == long && held.class == class)
    {
        Some(at) => {
            if let Some(held) = reductions.get_mut(at) {
                held.tokens |= tokens;
            }
        }
        None => reductions.push(Reduction {
            long,
            class,
            tokens,
        })?,
    }
    Ok(())
}

fn add_choice(
    free: &mut Free,
    rules: &[Rule],
    choice: Choice,
    tokens: u64,
) -> Result<(), NoMemory> {
    match choice {
        Choice::Reduce(number) => match rules.get(number as usize) {
            Some(rule) => {
                let long = rule.right.as_slice().len();
                add_reduction(&mut free.reductions, long, rule.left, tokens)
            }
            None => Ok(()),
        },
        _ => {
            free.shifts |= tokens;
            Ok(())
        }
    }
}

/// What some answers take at the state.
pub fn free_at(alloc: Global, tables: &Tables, state: State) -> Result<Free, NoMemory> {
    let rules = tables.description().rules();
    let mut free = Free {
        shifts: 0,
        reductions: Vec::new(alloc),
    };
    for token in tokens() {
        for choice in free_choices(rules, tables.action(state, *token)) {
            add_choice(&mut free, rules, *choice, bit(*token))?;
        }
    }
    Ok(free)
}
