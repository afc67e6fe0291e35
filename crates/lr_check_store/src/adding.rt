// Steps that follow are added.
ghost use Rattle.std.specs.Prelude.{◌<◌, OnOk, Contains, length};
ghost use Rattle.lr_check_found.specs.lr_check_sets.specs.Automaton.{Automaton};
ghost use Rattle.lr_check_found.specs.lr_check_sets.specs.Table.{automaton_of};
ghost use Rattle.lr_check_rows.specs.declared.rows.Line.{Line};
ghost use Rattle.lr_check_store.specs.Store.{IsSound};
ghost use Rattle.lr_check_store.specs.Adding.{PutsPlaces, PutsLine, IsToHold};

use crate::held::{hold_line, hold_places};
use crate::store::{Store, slot_of};
use gg_base::NoMemory;
use lr_check_plan::{Begins, Settles, Source, Step};
use lr_check_rows::Line;
use lr_tables::{State, Tables};
use md_reader::Sym;
use std::alloc::Global;
use tree_core::Tok;

impl Store {
    fn put_places(&mut self, at: usize, set: u64)
        requires { at < length self.old.rows }
        ensures { PutsPlaces self.old self.new at set }
    {
        hold_places(&mut self.rows[at], set);
    }

    fn put_line(&mut self, at: usize, entry: usize, line: Line) -> Result<(), NoMemory>
        requires { at < length self.old.rows }
        ensures { OnOk result (PutsLine self.old self.new at line) }
    {
        hold_line(&mut self.rows[at], entry, line)
    }

    fn add_places(&mut self, tables: &Tables, state: State, token: Tok, set: u64, by: Begins)
        requires { IsSound (automaton_of tables.now) self.old }
        ensures { IsSound (automaton_of tables.now) self.new }
    {
        if !self.begins(tables, state, token, set, by) {
            return;
        }
        let at = slot_of(state, token);
        if !self.stands_at(at, state, token) {
            return;
        }
        self.put_places(at, set);
    }

    // The list settles at the row with the tokens behind.
    fn hold(
        &mut self,
        at: usize,
        entry: usize,
        list: usize,
        behind: Option<State>,
        set: u64,
    ) -> Result<(), NoMemory>
        ensures { (A : Automaton) → IsSound A self.old → IsToHold A self.old at list behind set → OnOk result (IsSound A self.new) }
    {
        let sums = self.sums(list, &behind, set);
        if self.rows.len() <= at {
            return Ok(());
        }
        let line = Line {
            list,
            behind,
            settled: set,
            sums,
        };
        self.put_line(at, entry, line)
    }

    fn add_settled(
        &mut self,
        alloc: Global,
        tables: &Tables,
        at: usize,
        entry: usize,
        set: u64,
        by: Settles,
    ) -> Result<(), NoMemory>
        requires { IsSound (automaton_of tables.now) self.old }
        ensures { OnOk result (IsSound (automaton_of tables.now) self.new) }
    {
        let made = match self.make(tables, at, set, by) {
            Some(made) => made,
            None => return Ok(()),
        };
        let list = self
            .lists
            .join_behind(alloc, made.token, made.upper, made.lower)?;
        self.hold(at, entry, list, made.behind, set)
    }

    fn add_reduced(
        &mut self,
        alloc: Global,
        tables: &Tables,
        at: usize,
        entry: usize,
        set: u64,
        whole: Source,
        class: u16,
    ) -> Result<(), NoMemory>
        requires { IsSound (automaton_of tables.now) self.old }
        ensures { OnOk result (IsSound (automaton_of tables.now) self.new) }
    {
        if whole.row != at {
            return Ok(());
        }
        let state = match self.reduced(at, whole.entry, class, set) {
            Some(state) => state,
            None => return Ok(()),
        };
        let list = self.lists.push(alloc, Sym::Class(class), 0)?;
        self.hold(at, entry, list, tables.over(state, Sym::Class(class)), set)
    }

    // Adds the step, if it follows.
    fn add(&mut self, alloc: Global, tables: &Tables, step: Step) -> Result<(), NoMemory>
        requires { IsSound (automaton_of tables.now) self.old }
        ensures { OnOk result (IsSound (automaton_of tables.now) self.new) }
    {
        match step {
            Step::Places {
                state,
                token,
                behinds,
                by,
            } => {
                self.add_places(tables, state, token, behinds, by);
                Ok(())
            }
            Step::Settled {
                state,
                token,
                entry,
                behinds,
                by,
            } => {
                let at = slot_of(state, token);
                match by {
                    Settles::Reduced(whole, class) => {
                        self.add_reduced(alloc, tables, at, entry, behinds, whole, class)
                    }
                    _ => self.add_settled(alloc, tables, at, entry, behinds, by),
                }
            }
        }
    }

    /// Adds the steps that follow.
    pub(crate) fn add_all(
        &mut self,
        alloc: Global,
        tables: &Tables,
        steps: &[Step],
    ) -> Result<(), NoMemory>
        requires { IsSound (automaton_of tables.now) self.old }
        ensures { OnOk result (IsSound (automaton_of tables.now) self.new) }
    {
        for step in steps {
            self.add(alloc, tables, *step)?;
        }
        Ok(())
    }
}
