// Whether a sample is a well-typed statement.
ghost use Rattle.std.specs.Prelude.{◌≡◌, IsTrue, slice_get};
ghost use Rattle.lr_check.specs.Statement.{fits_at, KidsFit, AreTyped, IsStatement};

use crate::sample::{Sample, SampleNode};
use tree_core::Sort;

// Whether the node's tree may stand where the sort is wanted.
fn fits_at(nodes: &[SampleNode], number: usize, wanted: Sort) -> bool
    ensures { result ≡ fits_at (slice_get nodes.now number) wanted }
{
    match nodes.get(number) {
        Some(node) => match node.tok().sort() {
            Some(sort) => sort.fits(wanted),
            None => false,
        },
        None => false,
    }
}

// Whether the kids are as many as the sorts, and each fits its own.
fn kids_fit(nodes: &[SampleNode], kids: &[u32], sorts: &[Sort]) -> bool
    ensures { IsTrue result → KidsFit nodes.now kids.now sorts.now }
{
    kids.len() == sorts.len()
        && kids
            .iter()
            .zip(sorts)
            .all(|(kid, sort)| fits_at(nodes, *kid as usize, *sort))
}

// Whether the kids of each node fit its token.
fn are_typed(nodes: &[SampleNode]) -> bool
    ensures { IsTrue result → AreTyped nodes.now }
{
    nodes
        .iter()
        .all(|node| kids_fit(nodes, node.kids(), node.tok().kids()))
}

/// Whether the sample's tree is a well-typed statement; where it is not said to be, it may be one.
pub fn is_statement(sample: &Sample) -> bool
    ensures { IsTrue result → IsStatement sample.now }
{
    if !sample.is_numbered() {
        return false;
    }
    let nodes = sample.nodes();
    fits_at(nodes, nodes.len() - 1, Sort::Stmt) && are_typed(nodes)
}
