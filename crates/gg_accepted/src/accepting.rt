// Descriptions whose tables were checked, and whose rules were then shown on a machine.
ghost use Rattle.std.specs.Prelude.{◌≡◌, length};
ghost use Rattle.lr_checked.specs.Accepted.{NeverStops};
ghost use Rattle.lr_tables.specs.Promises.{IsNumbered};
ghost use Rattle.sel_parse.specs.Answers.{Shows};
ghost use Rattle.sel_parse.specs.Shown.{first_refusal};
ghost use Rattle.sel_parse_effect.specs.Claims.{IsFit};

use lr_checked::Checked;
use lr_tables::Tables;
use sel_parse::{Generator, ShowFault, show_rules};
use sel_target::Templates;
use std::alloc::Global;
use std::marker::Model;

/// A machine description that is accepted for a machine: no typed statement stops the parse by its tables, and all its rules are shown on
/// the machine.
#[derive(Drop)]
pub struct Accepted<T: Templates> {
    generator: Generator<T>,
}

impl<T: Templates> Model for Accepted<T> {
    ghost use Rattle.lr_tables.specs.View.{TableView};
    ghost use Rattle.lr_tables.specs.Promises.{IsNumbered};
    ghost use Rattle.lr_checked.specs.Accepted.{NeverStops};

    ghost Value = { TableView };

    ghost view = { λ a. a.generator.tables };

    ghost invariant = { λ a. NeverStops a.generator.tables.content × IsNumbered a.generator.tables };
}

impl<T: Templates> Accepted<T> {
    /// Its tables and rules, as selection uses them.
    pub fn generator(&self) -> &Generator<T>
        ensures { result.now.tables ≡ self.now }
    {
        &self.generator
    }

    /// How many rules there are.
    pub fn rules(&self) -> u32
        ensures { result ≡ length self.now.content.rules }
    {
        self.generator.rules()
    }

    /// How many item sets there are, at most 4,096.
    pub fn states(&self) -> u32
        ensures { result ≡ length self.now.rows }
    {
        self.generator.states()
    }

    /// No typed statement stops the parse; the description is valid, and its rules and lines are shown on the machine; its tables are its
    /// item sets. The call does nothing: its clauses are the facts.
    pub fn is_accepted(&self)
        ensures never { NeverStops self.now.content }
        ensures fit { IsFit T.meaning self.now.content }
        ensures numbered { IsNumbered self.now }
    {
        self.generator.is_shown();
    }
}

/// Shows the rules of a description whose tables were checked on a machine. Otherwise the first refusal is answered, with the tables.
pub fn accept<T: Templates>(
    alloc: Global,
    checked: Checked,
    target: T,
) -> Result<Accepted<T>, (Tables, ShowFault)>
    ensures { Shows (λ a. a) result checked (first_refusal T.meaning.effect T.meaning.spill_effect checked.content) }
{
    checked.never_stops();
    checked.tables().is_numbered();
    match show_rules(alloc, checked.into_tables(), target) {
        Ok(generator) => Ok(Accepted { generator }),
        Err(refused) => Err(refused),
    }
}
