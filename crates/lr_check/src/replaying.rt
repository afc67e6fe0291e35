// The parse of a sample by the tables.
ghost use Rattle.std.specs.Prelude.{◌≡◌, length, IfOk};
ghost use Rattle.lr_check.specs.declared.sample.Outcome.{Outcome};
ghost use Rattle.lr_check.specs.Tree.{IsSample};
ghost use Rattle.lr_check.specs.Steps.{first_config};
ghost use Rattle.lr_check.specs.Running.{Halts, Computes};
ghost use Rattle.lr_check.specs.Parse.{Replays};

use crate::ordering::order;
use crate::parse::Parse;
use crate::sample::{Outcome, Sample, SampleNode};
use gg_base::NoMemory;
use lr_tables::Tables;
use std::alloc::Global;

// How the steps over the tokens end.
fn run(
    alloc: Global,
    tables: &Tables,
    nodes: &[SampleNode],
    order: &[usize],
) -> Result<Outcome, NoMemory>
    ensures { IfOk result (λ o. Halts tables.now nodes.now order.now (first_config (length tables.now.content.classes)) o) }
{
    let description = tables.description();
    description.is_valid();
    let mut parse = Parse::new(alloc, description.classes().len())?;
    'steps: loop {
        match parse.step(tables, nodes, order)? {
            Some(outcome) => return Ok(outcome),
            None => {}
        }
    }
}

// The outcome by the steps of the code.
fn computed(alloc: Global, tables: &Tables, nodes: &[SampleNode]) -> Result<Outcome, NoMemory>
    requires { IsSample nodes.now }
    ensures { IfOk result (λ o. Computes tables.now nodes.now o) }
{
    match order(alloc, nodes)? {
        None => Ok(Outcome::Long),
        Some(order) => run(alloc, tables, nodes, order.as_slice()),
    }
}

/// How the parse of the sample's tree ends, with its answers. Each restricted candidate asks the node
/// whose subtree it covers.
pub fn replay(alloc: Global, tables: &Tables, sample: &Sample) -> Result<Outcome, NoMemory>
    requires { IsSample sample.now }
    // The parse over the description's rules ends so; a tree of more than 100,000 tokens is `Long`.
    ensures parse { IfOk result (λ o. Replays tables.now.content sample.now o) }
    // It ends in no other way.
    ensures only { IfOk result (λ o. (p : Outcome) → Replays tables.now.content sample.now p → p ≡ o) }
    // The steps of the code over the tables end so.
    ensures steps { IfOk result (λ o. Computes tables.now sample.now o) }
{
    tables.is_numbered();
    tables.description().is_valid();
    computed(alloc, tables, sample.nodes())
}
