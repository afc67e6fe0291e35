// The store of tables.
ghost use Rattle.std.specs.Prelude.{IfOk, OnOk};
ghost use Rattle.lr_check_found.specs.lr_check_sets.specs.Automaton.{Automaton};
ghost use Rattle.lr_check_found.specs.lr_check_sets.specs.Table.{automaton_of};
ghost use Rattle.lr_check_store.specs.Store.{IsSound};
ghost use Rattle.lr_check_ways.specs.Ways.{AreWays};

use crate::store::{Store, slot_of};
use gg_base::NoMemory;
use lr_check_found::Lists;
use lr_check_plan::planned_steps;
use lr_check_rows::Row;
use lr_check_ways::{Ways, ways_at};
use lr_tables::{State, Tables};
use std::alloc::Global;
use tree_core::{Tok, tokens};

impl Store {
    fn new(alloc: Global) -> Result<Self, NoMemory>
        ensures { IfOk result (λ s. (A : Automaton) → IsSound A s) }
    {
        Ok(Store {
            lists: Lists::new(alloc)?,
            rows: Vec::new(alloc),
            ways: Vec::new(alloc),
        })
    }

    // The row of the state and the token comes next, if it stands there.
    fn add_row(&mut self, alloc: Global, state: State, token: Tok) -> Result<(), NoMemory>
        ensures { (A : Automaton) → IsSound A self.old → OnOk result (IsSound A self.new) }
    {
        if slot_of(state, token) != self.rows.len() {
            return Ok(());
        }
        self.rows.push(Row {
            state,
            token,
            places: 0,
            lines: Vec::new(alloc),
        })?;
        Ok(())
    }

    // The ways of the state come next, if they stand there.
    fn add_ways(&mut self, state: State, ways: Ways) -> Result<(), NoMemory>
        ensures { (A : Automaton) → IsSound A self.old → AreWays A state ways → OnOk result (IsSound A self.new) }
    {
        if state.number() as usize != self.ways.len() {
            return Ok(());
        }
        self.ways.push(ways)?;
        Ok(())
    }

    fn add_state(&mut self, alloc: Global, tables: &Tables, state: State) -> Result<(), NoMemory>
        requires { IsSound (automaton_of tables.now) self.old }
        ensures { OnOk result (IsSound (automaton_of tables.now) self.new) }
    {
        for token in tokens() {
            self.add_row(alloc, state, *token)?;
        }
        let ways = ways_at(alloc, tables, state)?;
        match ways {
            Some(ways) => self.add_ways(state, ways),
            None => Ok(()),
        }
    }

    fn add_states(&mut self, alloc: Global, tables: &Tables) -> Result<(), NoMemory>
        requires { IsSound (automaton_of tables.now) self.old }
        ensures { OnOk result (IsSound (automaton_of tables.now) self.new) }
    {
        for number in 0..tables.states() {
            if let Ok(number) = u16::try_from(number) {
                self.add_state(alloc, tables, State::of(number))?;
            }
        }
        Ok(())
    }
}

/// What is found of the sets of the tables: all that is held is in them.
pub fn stored(alloc: Global, tables: &Tables) -> Result<Store, NoMemory>
    ensures { IfOk result (λ s. IsSound (automaton_of tables.now) s) }
{
    let mut store = Store::new(alloc)?;
    store.add_states(alloc, tables)?;
    let steps = planned_steps(alloc, tables)?;
    store.add_all(alloc, tables, &steps)?;
    Ok(store)
}
