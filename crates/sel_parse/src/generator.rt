// The tables of a description whose rules are all shown, with their target.
ghost use Rattle.std.specs.Prelude.{◌≡◌, length, IfOk, true};
ghost use Rattle.md_reader.specs.Valid.{IsValid};
ghost use Rattle.sel_parse.specs.Shown.{first_refusal, is_shown, saved_kinds, AreShown, AreLinesShown};
ghost use Rattle.sel_parse.specs.Answers.{Shows};

use crate::fault::ShowFault;
use crate::showing::first_refusal;
use lr_tables::Tables;
use sel_target::Templates;
use std::alloc::Global;

/// Tables each of whose rules does on the target what its pattern says, as do the lines that save and reload. No rule needs more registers
/// than the pool has.
#[derive(Drop)]
pub struct Generator<T: Templates> {
    pub(crate) tables: Tables,
    pub(crate) target: T,
    pub ghost shown: { is_shown T.meaning.effect T.meaning.spill_effect tables.content ≡ true },
}

impl<T: Templates> Generator<T> {
    /// The description is valid, and all rules are shown, and the lines that save and reload. The call does nothing: its clauses
    /// are the facts.
    pub fn is_shown(&self)
        ensures rules { AreShown T.meaning.effect self.now.tables.content }
        ensures lines { AreLinesShown T.meaning.spill_effect saved_kinds self.now.tables.content.spills }
        ensures valid { IsValid self.now.tables.content }
    {
        self.tables.description().is_valid();
    }

    /// How many rules there are.
    pub fn rules(&self) -> u32
        ensures { result ≡ length self.now.tables.content.rules }
    {
        self.tables.description().is_valid();
        self.tables.description().rules().len() as u32
    }

    /// How many item sets there are, at most 4,096.
    pub fn states(&self) -> u32
        ensures { result ≡ length self.now.tables.rows }
    {
        self.tables.states()
    }
}

/// Shows each rule: it needs no more registers than the pool has, its template has no fault, and does what its pattern says. Otherwise the
/// first refusal is answered, with the tables: pools go first, then the lines that save and reload, then the rules in order.
pub fn show_rules<T: Templates>(
    alloc: Global,
    tables: Tables,
    target: T,
) -> Result<Generator<T>, (Tables, ShowFault)>
    ensures shown { IfOk result (λ g. AreShown T.meaning.effect tables.content) }
    ensures first { Shows (λ g. g.tables) result tables (first_refusal T.meaning.effect T.meaning.spill_effect tables.content) }
{
    match first_refusal(alloc, tables.description(), &target) {
        Ok(()) => Ok(Generator { tables, target }),
        Err(fault) => Err((tables, fault)),
    }
}
