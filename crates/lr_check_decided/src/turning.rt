// Where each class that isn't calm leads to one that isn't, reductions turn.
ghost use Rattle.std.specs.Prelude.{◌≡◌, ℕ, ◌+◌, ◌<◌, ◌≤◌, ◌++◌, ◌∷◌, []};
ghost use Rattle.std.specs.Prelude.{Some, IfOk, IfSome, IfNone, false, length, drop, slice_get, slice_index_or};
ghost use Rattle.lr_check_sets.specs.Bound.{HasClasses};
ghost use Rattle.lr_check_sets.specs.Table.{productions, automaton_of};
ghost use Rattle.lr_check_decided.specs.Calm.{IsNext, Stuck, AreStuck};
ghost use Rattle.lr_check_decided.specs.Turn.{IsTurn};

use crate::calm::next_unmarked;
use gg_base::NoMemory;
use lr_tables::{State, Tables};
use std::alloc::Global;
use tree_core::Tok;

/// A class, and the classes along which reductions lead from it alone back to it.
#[derive(Drop)]
pub(crate) struct Turn {
    pub class: u16,
    pub along: Vec<u16>,
}

// The first place at which the class stands.
fn place_of(way: &[u16], class: u16) -> Option<usize>
    ensures there { IfSome result (λ j. slice_get way.now j ≡ Some class) }
    ensures absent { IfNone result ((j : ℕ) → slice_get way.now j ≡ Some class → ⊥) }
{
    way.iter().position(|other| *other == class)
}

// What stands behind the place, and the class.
fn turn_at(alloc: Global, way: &[u16], at: usize, class: u16) -> Result<Turn, NoMemory>
    requires { at < length way.now }
    ensures same { IfOk result (λ t. t.class ≡ class) }
    ensures along { IfOk result (λ t. t.along.items ≡ drop (at + 1) way.now ++ class ∷ []) }
{
    let mut along = Vec::new(alloc);
    along.extend_from_slice(&way[at + 1..])?;
    along.push(class)?;
    Ok(Turn { class, along })
}

fn next(tables: &Tables, state: State, behind: Tok, marks: &[bool], class: u16) -> u16
    requires classes { HasClasses (productions tables.now.content.rules) (length marks.now) }
    requires stuck { Stuck (automaton_of tables.now) state behind marks.now class }
    ensures { IsNext (automaton_of tables.now) state behind marks.now class result }
{
    next_unmarked(tables, state, behind, marks, class).unwrap()
}

/// A class that comes again, to which reductions lead from the class, which isn't marked.
pub(crate) fn turn_from(
    alloc: Global,
    tables: &Tables,
    state: State,
    behind: Tok,
    marks: &[bool],
    start: u16,
) -> Result<Turn, NoMemory>
    requires classes { HasClasses (productions tables.now.content.rules) (length marks.now) }
    requires few { length marks.now ≤ 64 }
    requires stuck { AreStuck (automaton_of tables.now) state behind marks.now }
    requires low { start < length marks.now }
    requires unmarked { slice_index_or marks.now start false ≡ false }
    ensures { IfOk result (λ t. IsTurn (automaton_of tables.now) state behind start t) }
{
    let mut way = Vec::new(alloc);
    let mut class = start;
    for _round in 0..marks.len() + 1 {
        if let Some(at) = place_of(&way, class) {
            return turn_at(alloc, &way, at, class);
        }
        way.push(class)?;
        class = next(tables, state, behind, marks, class);
    }
    unreachable!()
}
