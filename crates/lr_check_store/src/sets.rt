// The tokens with which a choice leads out of a list.
ghost use Rattle.std.specs.Prelude.{◌<◌, ◌⊎◌};
ghost use Rattle.tree_core.specs.declared.token.Tok.{Tok};
ghost use Rattle.lr_check_ways.specs.Sets.{In};
ghost use Rattle.lr_check_store.specs.Store.{IsOut};

use lr_check_ways::{Reduction, Ways};

/// What is in one of the sets.
pub fn union(left: u64, right: u64) -> u64
    ensures { (k : Tok) → In result k → In left k ⊎ In right k }
{
    left | right
}

/// What is in both sets.
pub fn shared(left: u64, right: u64) -> u64
    ensures left { (k : Tok) → In result k → In left k }
    ensures right { (k : Tok) → In result k → In right k }
{
    left & right
}

/// No token.
pub fn none() -> u64
    ensures { (k : Tok) → In result k → ⊥ }
{
    0
}

// The set with the reduction's tokens, if its right side is longer than so many symbols.
fn with_longer(set: u64, reduction: &Reduction, size: usize) -> u64
    ensures { (k : Tok) → In result k → In set k ⊎ ((size < reduction.now.long) × In reduction.now.tokens k) }
{
    if size < reduction.long {
        union(set, reduction.tokens)
    } else {
        set
    }
}

/// The tokens with which some way leads out of a list of so many symbols.
pub fn outs(ways: &Ways, size: usize) -> u64
    ensures { (b : Tok) → In result b → IsOut ways.now size b }
{
    let mut outs = ways.shifts;
    for reduction in ways.reductions.iter() {
        outs = with_longer(outs, reduction, size);
    }
    outs
}
