// States, choices, and the rows of tables.
ghost use Rattle.std.specs.Prelude.{◌≡◌};

use gg_base::ListOf;
use std::marker::Model;

/// An item set, by its number. The start has number 0.
#[derive(Clone, Copy, Debug, PartialEq, Eq)]
pub struct State(u16);

impl Model for State {
    ghost use Rattle.std.specs.Prelude.{ℕ};

    ghost Value = { ℕ };

    ghost view = { λ s. s.0 };

    ghost inverse = { λ n. record { 0 = n } };
}

impl State {
    /// The start.
    pub const START: State = State(0);

    /// The state with this number.
    pub fn of(number: u16) -> Self
        ensures { result ≡ number }
    {
        State(number)
    }

    /// The state's number.
    pub fn number(self) -> u16
        ensures { result ≡ self }
    {
        self.0
    }
}

/// What may be done at a state and a next token. A shift of `End` accepts.
#[derive(Clone, Copy, Debug, PartialEq, Eq)]
pub enum Choice {
    Shift(State),
    /// By the rule with this number.
    Reduce(u16),
    Accept,
}

/// What may be done, in order.
pub type Choices = ListOf<Choice>;

/// A row of the tables.
#[derive(Drop)]
pub struct Row {
    targets: Vec<Option<State>>,
    actions: Vec<Choices>,
}

impl Model for Row {
    ghost use Rattle.lr_tables.specs.View.{RowView};

    ghost Value = { RowView };

    ghost view = { λ r. record { targets = r.targets.items; actions = r.actions.items } };
}

impl Row {
    pub fn new(targets: Vec<Option<State>>, actions: Vec<Choices>) -> Self
        ensures { result ≡ record { targets = targets.items; actions = actions.items } }
    {
        Row { targets, actions }
    }

    /// Where each symbol leads.
    pub fn targets(&self) -> &[Option<State>]
        ensures { result.now ≡ self.now.targets }
    {
        &self.targets
    }

    /// For each token what may be done.
    pub fn actions(&self) -> &[Choices]
        ensures { result.now ≡ self.now.actions }
    {
        &self.actions
    }
}
