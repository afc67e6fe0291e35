// One step of the parse.
ghost use Rattle.std.specs.Prelude.{◌≡◌, ◌<◌, ◌^◌, IfOk, IfSome, false, length, replicate, slice_get};
ghost use Rattle.md_reader.specs.declared.types.Sym.TheVariants as grammar_symbol;
ghost use Rattle.lr_tables.specs.Leads.{target_at};
ghost use Rattle.lr_check.specs.Steps.{first_config, top_of, token_of, shifted, marked, placed, reduced, after_choice, step};

use crate::sample::{Outcome, SampleNode};
use crate::stack::{Entry, choose, first_place, top_of};
use gg_base::NoMemory;
use lr_tables::{Choice, State, Tables};
use md_reader::Rule;
use std::alloc::Global;
use std::marker::Model;
use tree_core::Tok;

/// Where a parse stands: the offset of the next token, the stack, whose top stands last, and the
/// classes that were on top since a token was shifted or the stack became shorter.
#[derive(Drop)]
pub struct Parse {
    at: usize,
    stack: Vec<Entry>,
    seen: Vec<bool>,
}

impl Model for Parse {
    ghost use Rattle.lr_check.specs.Steps.{Config};

    ghost Value = { Config };

    ghost view = { λ p. record { at = p.at; stack = p.stack.items; seen = p.seen.items } };
}

/// Nothing is seen any more.
pub fn clear(seen: &mut [bool])
    ensures { seen.new ≡ replicate (length seen.old) false }
{
    seen.fill(false);
}

impl Parse {
    /// Before the first token, with nothing on the stack.
    pub fn new(alloc: Global, classes: usize) -> Result<Self, NoMemory>
        ensures { IfOk result (λ p. p ≡ first_config classes) }
    {
        let seen = vec![in alloc; false; classes]?;
        Ok(Parse {
            at: 0,
            stack: Vec::new(alloc),
            seen,
        })
    }

    // A token comes on the stack with its node.
    fn shift(&mut self, state: State, node: usize) -> Result<(), NoMemory>
        requires { self.old.at < 2 ^ 63 }
        ensures { IfOk result (λ _. record { ending = None; config = self.new } ≡ shifted self.old self.old.stack state (Some node)) }
    {
        self.stack.push(Entry {
            state,
            node,
            used: 0,
        })?;
        clear(&mut self.seen);
        self.at += 1;
        Ok(())
    }

    // The class is on top: the same stack comes again where it was there already.
    fn mark(&mut self, class: u16) -> Option<Outcome>
        ensures { record { ending = result; config = self.new } ≡ marked self.old class }
    {
        let at = class as usize;
        if at < self.seen.len() {
            if self.seen[at] {
                return Some(Outcome::Loops(self.at as u64));
            }
            self.seen[at] = true;
        }
        None
    }

    // The rule's class comes in the place of its right side.
    fn reduce(&mut self, tables: &Tables, rule: &Rule) -> Result<Option<Outcome>, NoMemory>
        ensures { IfOk result (λ o. record { ending = o; config = self.new } ≡ reduced tables.now self.old self.old.stack (Some rule.now)) }
    {
        match first_place(self.stack.as_slice(), rule) {
            None => Ok(Some(Outcome::Blocks(self.at as u64))),
            Some(place) => {
                let first = self.stack[place];
                self.stack.truncate(place);
                self.place(tables, rule, first)
            }
        }
    }

    // The rule's class comes on the stack, with the node of its right side's first symbol.
    fn place(
        &mut self,
        tables: &Tables,
        rule: &Rule,
        first: Entry,
    ) -> Result<Option<Outcome>, NoMemory>
        ensures { let target = target_at tables.now (top_of self.old.stack) (grammar_symbol.Class rule.now.left) in
            IfOk result (λ o. record { ending = o; config = self.new } ≡ placed self.old self.old.stack rule.now first target) }
    {
        match tables.go(top_of(self.stack.as_slice()), rule.left) {
            None => Ok(Some(Outcome::Blocks(self.at as u64))),
            Some(state) => {
                if rule.right.as_slice().len() > 1 {
                    clear(&mut self.seen);
                }
                self.stack.push(Entry {
                    state,
                    node: first.node,
                    used: first.used,
                })?;
                Ok(self.mark(rule.left))
            }
        }
    }

    // The choice is made.
    fn make(
        &mut self,
        tables: &Tables,
        next: Option<usize>,
        choice: Choice,
    ) -> Result<Option<Outcome>, NoMemory>
        requires { IfSome next (λ _. self.old.at < 2 ^ 63) }
        ensures { let after = after_choice tables.now next self.old self.old.stack (Some choice) in
            IfOk result (λ o. record { ending = o; config = self.new } ≡ after) }
    {
        match choice {
            Choice::Accept => Ok(Some(Outcome::Done)),
            Choice::Shift(state) => match next {
                Some(node) => {
                    self.shift(state, node)?;
                    Ok(None)
                }
                None => Ok(Some(Outcome::Blocks(self.at as u64))),
            },
            Choice::Reduce(number) => match tables.description().rules().get(number as usize) {
                Some(rule) => self.reduce(tables, rule),
                None => Ok(Some(Outcome::Blocks(self.at as u64))),
            },
        }
    }

    /// One step: how the parse ends by it, if it does.
    pub fn step(
        &mut self,
        tables: &Tables,
        nodes: &[SampleNode],
        order: &[usize],
    ) -> Result<Option<Outcome>, NoMemory>
        ensures { IfOk result (λ o. record { ending = o; config = self.new } ≡ step tables.now nodes.now order.now self.old) }
    {
        let next = node_at(order, self.at);
        let choices = tables.action(top_of(self.stack.as_slice()), token_of(nodes, next));
        let rules = tables.description().rules();
        match choose(rules, nodes, choices, &mut self.stack) {
            None => Ok(Some(Outcome::Blocks(self.at as u64))),
            Some(choice) => self.make(tables, next, choice),
        }
    }
}

// The node of the token with this offset.
fn node_at(order: &[usize], at: usize) -> Option<usize>
    ensures value { result ≡ slice_get order.now at }
    ensures within { IfSome result (λ _. at < 2 ^ 63) }
{
    order.get(at).copied()
}

// The next token, which is `End` behind the last.
fn token_of(nodes: &[SampleNode], next: Option<usize>) -> Tok
    ensures { result ≡ token_of nodes.now next }
{
    match next {
        Some(number) => match nodes.get(number) {
            Some(node) => node.tok(),
            None => Tok::End,
        },
        None => Tok::End,
    }
}
