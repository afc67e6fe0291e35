// A parse by tables, step by step: the symbols on its stack, each with its state, and the answers that its rules ask for.
use crate::words::Word;
use gg_base::NoMemory;
use lr_tables::{Choice, State, Tables};
use md_reader::{Rule, Sym};
use std::alloc::{AllocError, Global};
use tree_core::Tok;

/// A symbol on the stack: the state behind it, and the word at which its tree begins.
#[derive(Clone, Copy)]
pub struct Entry {
    pub symbol: Sym,
    pub state: State,
    pub word: usize,
}

/// How a parse stands.
#[derive(Drop)]
pub struct Parse {
    pub words: Vec<Word>,
    /// The next word.
    pub at: usize,
    pub entries: Vec<Entry>,
    // The classes that were on top since a word was shifted or the stack became shorter.
    seen: Vec<u16>,
}

/// What a step does.
#[derive(Clone, Copy)]
pub enum Step {
    Shift,
    /// By the rule with this number, from 0.
    Reduce(u16),
    Accept,
    /// Nothing may be done.
    Block,
    /// By this rule a class comes again on top of the same stack.
    Turn(u16),
}

impl Step {
    /// Whether no step comes behind it.
    pub fn is_last(self) -> bool {
        !matches!(self, Step::Shift | Step::Reduce(_))
    }
}

impl Parse {
    /// A parse that begins.
    pub fn new(alloc: Global, words: Vec<Word>) -> Self {
        Parse {
            words,
            at: 0,
            entries: Vec::new(alloc),
            seen: Vec::new(alloc),
        }
    }

    /// The state on top.
    pub fn state(&self) -> State {
        match self.entries.last() {
            Some(entry) => entry.state,
            None => State::START,
        }
    }

    /// The token that comes: `End` behind the last word.
    pub fn coming(&self) -> Tok {
        match self.words.get(self.at) {
            Some(word) => word.token,
            None => Tok::End,
        }
    }

    // The place of the first symbol of a rule that is complete.
    fn first_of(&self, rule: &Rule) -> usize {
        self.entries
            .len()
            .saturating_sub(rule.right.as_slice().len())
    }

    // The next answer of the word at which a rule's symbols begin.
    fn answer(&mut self, rule: &Rule) -> bool {
        let first = self.first_of(rule);
        let Some(entry) = self.entries.get(first).copied() else {
            return false;
        };
        match self.words.get_mut(entry.word) {
            Some(word) => word.next_answer(),
            None => false,
        }
    }

    // The first choice whose rule has no restriction or is answered yes.
    fn choose(&mut self, tables: &Tables) -> Option<Choice> {
        let choices = tables.action(self.state(), self.coming());
        for choice in choices {
            let Choice::Reduce(number) = *choice else {
                return Some(*choice);
            };
            let rule = tables.description().rules().get(number as usize)?;
            if rule.restrictions.as_slice().is_empty() || self.answer(rule) {
                return Some(*choice);
            }
        }
        None
    }

    fn shift(&mut self, state: State) -> Result<(), AllocError> {
        let entry = Entry {
            symbol: Sym::Tok(self.coming()),
            state,
            word: self.at,
        };
        self.entries.push(entry)?;
        self.at = self.at.saturating_add(1);
        self.seen.clear();
        Ok(())
    }

    // The rule's class comes in the place of its symbols.
    fn reduce(&mut self, tables: &Tables, number: u16, rule: &Rule) -> Result<Step, AllocError> {
        let first = self.first_of(rule);
        let word = match self.entries.get(first) {
            Some(entry) => entry.word,
            None => self.at,
        };
        self.entries.truncate(first);
        if rule.right.as_slice().len() != 1 {
            self.seen.clear();
        }
        let Some(state) = tables.go(self.state(), rule.left) else {
            return Ok(Step::Block);
        };
        let turns = self.seen.contains(&rule.left);
        self.seen.push(rule.left)?;
        self.entries.push(Entry {
            symbol: Sym::Class(rule.left),
            state,
            word,
        })?;
        Ok(if turns {
            Step::Turn(number)
        } else {
            Step::Reduce(number)
        })
    }

    // Does what was chosen.
    fn make(&mut self, tables: &Tables, choice: Choice) -> Result<Step, NoMemory> {
        match choice {
            Choice::Accept => Ok(Step::Accept),
            Choice::Shift(state) => {
                self.shift(state)?;
                Ok(Step::Shift)
            }
            Choice::Reduce(number) => match tables.description().rules().get(number as usize) {
                Some(rule) => Ok(self.reduce(tables, number, rule)?),
                None => Ok(Step::Block),
            },
        }
    }

    /// Does the next step.
    pub fn step(&mut self, tables: &Tables) -> Result<Step, NoMemory> {
        match self.choose(tables) {
            Some(choice) => self.make(tables, choice),
            None => Ok(Step::Block),
        }
    }
}
