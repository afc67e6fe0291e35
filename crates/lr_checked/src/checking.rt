// Whether some tree blocks the parser or makes it turn for ever.
ghost use Rattle.std.specs.Prelude.{◌≡◌, IfOk, IfErr, MatchResult};
ghost use Rattle.gg_base.specs.declared.limits.TheConstants.{SUMMARY_LIMIT};
ghost use Rattle.lr_check_found.specs.lr_check_sets.specs.Table.{automaton_of};
ghost use Rattle.lr_check_found.specs.Count.{HasMore};
ghost use Rattle.lr_check_found.specs.Sound.{IsFound};
ghost use Rattle.lr_check_flaws.specs.Flaws.{IsFlaw};
ghost use Rattle.lr_check_drawn.specs.Sampled.{IsSampleOf};
ghost use Rattle.lr_checked.specs.Accepted.{NeverStops};
ghost use Rattle.lr_checked.specs.Counted.{IsCounted};
ghost use Rattle.lr_checked.specs.Refusals.{FaultIsReal, SomeStops, IsStopped, FullIsFirst};
ghost use Rattle.lr_checked.specs.Samples.{refusal_of};

use crate::laws::no_fault_is_enough;
use gg_base::NoMemory;
use lr_check::{Outcome, Sample, replay};
use lr_check_decided::{Decision, decide};
use lr_check_drawn::draw;
use lr_check_flaws::Flaw;
use lr_check_found::Found;
use lr_tables::Tables;
use std::alloc::Global;
use std::marker::Model;

/// Why tables are refused: there is no memory; some tree blocks the parser, or makes it turn for ever; or
/// there are more than `SUMMARY_LIMIT` ways in which symbols may replace a subtree.
#[derive(Drop)]
pub enum CheckFault {
    NoMemory,
    Blocks(Sample),
    Loops(Sample),
    CheckFull,
}

/// Tables by which each typed statement is parsed to its end, whatever its questions answer.
#[derive(Drop)]
pub struct Checked {
    tables: Tables,
    tuples: usize,
}

impl Model for Checked {
    ghost use Rattle.lr_tables.specs.View.{TableView};
    ghost use Rattle.lr_checked.specs.Accepted.{NeverStops};
    ghost use Rattle.lr_checked.specs.Counted.{IsCounted};

    ghost Value = { TableView };

    ghost view = { λ c. c.tables };

    ghost invariant = { λ c. NeverStops c.tables.content × IsCounted c.tables c.tuples };
}

impl Checked {
    pub fn tables(&self) -> &Tables
        ensures { result.now ≡ self.now }
    {
        &self.tables
    }

    pub fn into_tables(self) -> Tables
        ensures { result ≡ self }
    {
        self.tables
    }

    /// How many tuples the set of sums has, each a place and symbols that may replace its subtree: at most
    /// `SUMMARY_LIMIT`.
    pub fn tuples(&self) -> usize
        ensures { IsCounted self.now result }
    {
        self.tuples
    }

    /// No typed statement stops the parse. The call does nothing: its clause is the fact.
    pub fn never_stops(&self)
        ensures { NeverStops self.now.content }
    {
        let _tables = &self.tables;
    }
}

// What a sample of the flaw shows where its replay says neither.
fn unreplayed(flaw: &Flaw, sample: Sample) -> CheckFault
    ensures { result ≡ refusal_of flaw.now sample }
{
    match flaw {
        Flaw::Gap(_) | Flaw::Dead(_) => CheckFault::Blocks(sample),
        Flaw::Circle(_, _) => CheckFault::Loops(sample),
    }
}

// The refusal that a sample of the flaw shows.
fn refusal(alloc: Global, tables: &Tables, flaw: &Flaw, sample: Sample) -> CheckFault
    requires { IsSampleOf tables.now.content flaw.now sample }
    ensures real { FaultIsReal tables.now.content result }
    ensures few { (HasMore (automaton_of tables.now) SUMMARY_LIMIT → ⊥) → FullIsFirst (automaton_of tables.now) result }
{
    tables.is_numbered();
    tables.description().is_valid();
    match replay(alloc, tables, &sample) {
        Ok(Outcome::Blocks(_)) => CheckFault::Blocks(sample),
        Ok(Outcome::Loops(_)) => CheckFault::Loops(sample),
        Ok(Outcome::Long) => unreplayed(flaw, sample),
        Ok(Outcome::Done) => unreplayed(flaw, sample),
        Err(NoMemory) => CheckFault::NoMemory,
    }
}

// The refusal that a flaw of what was found shows.
fn refused(alloc: Global, tables: &Tables, found: &Found, flaw: &Flaw) -> CheckFault
    requires found { IsFound (automaton_of tables.now) found.now }
    requires flaw { IsFlaw (automaton_of tables.now) found.now flaw.now }
    ensures real { FaultIsReal tables.now.content result }
    ensures few { (HasMore (automaton_of tables.now) SUMMARY_LIMIT → ⊥) → FullIsFirst (automaton_of tables.now) result }
{
    match draw(alloc, tables, found, flaw) {
        Ok(nodes) => refusal(alloc, tables, flaw, Sample::new(nodes)),
        Err(NoMemory) => CheckFault::NoMemory,
    }
}

// How many tuples there are, or why the tables are refused.
fn verdict(alloc: Global, tables: &Tables) -> Result<usize, CheckFault>
    ensures fine { IfOk result (λ n. NeverStops tables.now.content) }
    ensures few { IfOk result (λ n. IsCounted tables.now n) }
    ensures real { IfErr result (λ f. FaultIsReal tables.now.content f) }
    ensures full { IfErr result (λ f. FullIsFirst (automaton_of tables.now) f) }
{
    tables.is_numbered();
    tables.description().is_valid();
    no_fault_is_enough();
    match decide(alloc, tables) {
        Ok(Decision::Fine(tuples)) => Ok(tuples),
        Ok(Decision::Faulty(found, flaw)) => Err(refused(alloc, tables, &found, &flaw)),
        Ok(Decision::Full) => Err(CheckFault::CheckFull),
        Err(NoMemory) => Err(CheckFault::NoMemory),
    }
}

/// The tables, if no tree blocks the parser or makes it turn for ever, whatever its questions answer; or
/// the tables again and why they are refused. A refusal comes with a tree whose parse shows it.
pub fn check(alloc: Global, tables: Tables) -> Result<Checked, (Tables, CheckFault)>
    ensures tables { IfOk result (λ c. c ≡ tables) }
    // The parse of each typed statement ends with accepting, whatever its questions answer.
    ensures accepted { IfOk result (λ c. NeverStops tables.content) }
    // The set of sums has at most `SUMMARY_LIMIT` tuples.
    ensures few { IfOk result (λ c. ¬ HasMore (automaton_of tables) SUMMARY_LIMIT) }
    ensures back { IfErr result (λ e. e.0 ≡ tables) }
    // The sample of a refusal is a typed statement whose parse blocks, or loops, with its own answers.
    ensures real { IfErr result (λ e. FaultIsReal tables.content e.1) }
    // Want of memory and too many tuples apart, tables are accepted exactly where no typed statement stops the parse.
    ensures exact { MatchResult result (λ c. SomeStops tables.content → ⊥) (λ e. IsStopped tables.content e.1) }
    // `CheckFull` comes exactly where there are more than `SUMMARY_LIMIT` tuples, before any other fault but memory.
    ensures full { IfErr result (λ e. FullIsFirst (automaton_of tables) e.1) }
{
    match verdict(alloc, &tables) {
        Ok(tuples) => Ok(Checked { tables, tuples }),
        Err(fault) => Err((tables, fault)),
    }
}
