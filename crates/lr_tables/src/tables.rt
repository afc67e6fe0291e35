// The tables of a description.
ghost use Rattle.std.specs.Prelude.{◌≡◌, length};
ghost use Rattle.md_reader.specs.declared.types.Sym.TheVariants as grammar_symbol;
ghost use Rattle.lr_tables.specs.Statements.{stmt_of};
ghost use Rattle.lr_tables.specs.Leads.{target_at, actions_at};
ghost use Rattle.lr_tables.specs.Promises.{AreCandidates, LeadsOn, IsNumbered};

use crate::item::{TOKENS, number, symbol_number};
use crate::kept::{Kept, target_of_entry};
use crate::types::{Choice, State};
use md_reader::{Description, Sym};
use std::marker::Model;
use tree_core::Tok;

/// The tables of a description, which they hold.
#[derive(Drop)]
pub struct Tables {
    description: Description,
    kept: Kept,
}

impl Model for Tables {
    ghost use Rattle.std.specs.Prelude.{length};
    ghost use Rattle.lr_tables.specs.View.{TableView};
    ghost use Rattle.lr_tables.specs.Kept.{rows_to, AreTables};
    ghost use Rattle.lr_tables.specs.Statements.{stmt_of};

    ghost Value = { TableView };

    ghost view = { λ t. record {
      content = t.description;
      rows = rows_to t.description.rules (stmt_of t.description.classes) (length t.description.classes) (length t.kept.lists.items);
    } };

    ghost invariant = { λ t. AreTables t.description.rules (stmt_of t.description.classes) (length t.description.classes) t.kept };
}

ghost use Rattle.md_reader.specs.Valid.{IsValid};
ghost use Rattle.lr_tables.specs.Kept.{AreTables};

impl Tables {
    /// The tables that are kept so.
    pub(crate) fn new(description: Description, kept: Kept) -> Self
        requires { AreTables description.rules (stmt_of description.classes) (length description.classes) kept }
        ensures { result.content ≡ description }
    {
        Tables { description, kept }
    }

    // The description is valid.
    fn is_valid(&self)
        ensures { IsValid self.now.content }
    {
        self.description.is_valid();
    }

    /// States are numbered as they are found, each followed in its turn over the symbols by their
    /// numbers. The call does nothing: its clause is the fact.
    pub fn is_numbered(&self)
        ensures { IsNumbered self.now }
    {
        let _kept = &self.kept;
    }

    fn choices(&self, state: State, token: Tok) -> &[Choice]
        ensures { result.now ≡ actions_at self.now state token }
    {
        let row = state.number() as usize;
        match self.kept.lists.get(row) {
            Some(lists) => {
                let place = self.kept.actions.at(row, number(token)) as usize;
                match lists.as_slice().get(place) {
                    Some(choices) => choices.as_slice(),
                    None => &[],
                }
            }
            None => &[],
        }
    }

    /// The state to which a state leads over a symbol, whatever comes next.
    pub fn over(&self, state: State, symbol: Sym) -> Option<State>
        ensures { result ≡ target_at self.now state symbol }
    {
        let row = state.number() as usize;
        let column = symbol_number(symbol);
        if row < self.kept.lists.len() && column < TOKENS + self.description.classes().len() {
            target_of_entry(self.kept.gotos.at(row, column))
        } else {
            None
        }
    }

    /// What may be done at a state and a next token, in order: the shift alone, or the reductions by
    /// the rules that are complete there, longer right sides first.
    pub fn action(&self, state: State, token: Tok) -> &[Choice]
        ensures value { result.now ≡ actions_at self.now state token }
        // At each stack that leads to the state these are the candidates of its items.
        ensures candidates { AreCandidates self.now state token result.now }
    {
        self.is_valid();
        self.is_numbered();
        self.choices(state, token)
    }

    /// The state to which a class leads: none exactly where no item of the state stands before it.
    pub fn go(&self, state: State, class: u16) -> Option<State>
        ensures value { result ≡ target_at self.now state (grammar_symbol.Class class) }
        // At each stack that leads to the state an item before the class leads on.
        ensures goes { LeadsOn self.now state class result }
    {
        self.is_valid();
        self.is_numbered();
        self.over(state, Sym::Class(class))
    }

    /// How many states there are, at most `MAX_STATES`.
    pub fn states(&self) -> u32
        ensures { result ≡ length self.now.rows }
    {
        self.is_numbered();
        self.kept.lists.len() as u32
    }

    /// The description.
    pub fn description(&self) -> &Description
        ensures { result.now ≡ self.now.content }
    {
        &self.description
    }
}
