// The tokens of a sample's tree, in order.
ghost use Rattle.std.specs.Prelude.{◌≡◌, ◌++◌, length, reverse, IfOk, MatchOption};
ghost use Rattle.lr_check.specs.Tree.{IsSample};
ghost use Rattle.lr_check.specs.Order.{IsOrder, IsLongOrder};

use crate::sample::SampleNode;
use gg_base::NoMemory;
use std::alloc::Global;

/// The most tokens of a tree that is replayed.
pub const MAX_TOKENS: usize = 100_000;

// Puts the kids on the list, the first of them last.
fn push_kids(kids: &[u32], rest: &mut Vec<usize>) -> Result<(), NoMemory>
    ensures { IfOk result (λ _. rest.new.items ≡ rest.old.items ++ reverse kids.now) }
{
    rest.extend(kids.iter().rev().map(|kid| *kid as usize))?;
    Ok(())
}

/// The nodes of the tree's tokens, in order: none where there are more than 100,000.
pub fn order(alloc: Global, nodes: &[SampleNode]) -> Result<Option<Vec<usize>>, NoMemory>
    requires { IsSample nodes.now }
    ensures { IfOk result (λ o. MatchOption o (IsLongOrder nodes.now) (λ w. IsOrder nodes.now w.items)) }
{
    let mut order = Vec::new(alloc);
    let mut rest = Vec::new(alloc);
    rest.push(nodes.len() - 1)?;
    for _count in 0..MAX_TOKENS {
        match rest.pop() {
            None => return Ok(Some(order)),
            Some(number) => {
                order.push(number)?;
                push_kids(nodes[number].kids(), &mut rest)?;
            }
        }
    }
    if rest.is_empty() {
        Ok(Some(order))
    } else {
        Ok(None)
    }
}
