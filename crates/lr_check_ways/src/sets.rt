// Sets of tokens, as bits by their numbers.
ghost use Rattle.std.specs.Prelude.{IsTrue};
ghost use Rattle.tree_core.specs.declared.token.Tok.{Tok};
ghost use Rattle.lr_check_ways.specs.Sets.{In};

use lr_tables::number;
use tree_core::Tok;

/// The set with the token.
pub fn with(set: u64, token: Tok) -> u64 {
    let at = number(token);
    if at < 64 { set | 1 << at } else { set }
}

/// Whether the token is in the set.
pub fn has(set: u64, token: Tok) -> bool
    ensures there { IsTrue result → In set token }
    ensures back { In set token → IsTrue result }
{
    let at = number(token);
    if at < 64 { set >> at & 1 == 1 } else { false }
}

/// What is in both sets.
pub fn both(left: u64, right: u64) -> u64
    ensures { (k : Tok) → In left k → In right k → In result k }
{
    left & right
}

/// Whether the one set is within the other.
pub fn is_within(left: u64, right: u64) -> bool
    ensures { IsTrue result → (k : Tok) → In left k → In right k }
{
    left & right == left
}
