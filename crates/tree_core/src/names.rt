// Whether no two functions have one name. The names are looked at part by part of their hashes, so that no memory is taken.

ghost use Rattle.std.specs.Prelude.{◌≡◌, ◌↔◌, ◌<◌, ◌+◌, ◌*◌, ◌%◌, ◌^◌, IsTrue, fold};
ghost use Rattle.std.specs.Bool.{OnTrue, OnFalse};
ghost use Rattle.tree_core.specs.Valid.{named, NamesDiffer};
ghost use Rattle.tree_core.specs.Hashes.{hash_of, part_of, AreSettled};

use crate::program::TreeFn;

/// How many hashes a part has.
const PART: u32 = 65_536;

/// Whether no two functions have one name. A name is counted among all others only where its hash was met before, so that the time is
/// nearly that of a pass for each 512 functions.
pub(crate) fn names_differ(functions: &[TreeFn]) -> bool
    ensures { IsTrue result ↔ NamesDiffer functions.now }
{
    let parts = functions.len() / 512 + 1;
    (0..parts).all(|part| are_settled(functions, parts, part))
}

// Whether each name of the part is another one than those before it, or is counted once.
fn are_settled(functions: &[TreeFn], parts: usize, part: usize) -> bool
    requires { 0 < parts }
    ensures settled { OnTrue result (AreSettled parts part functions.now) }
    ensures clash { OnFalse result (¬ (NamesDiffer functions.now)) }
{
    let mut met = [false; 65_536];
    for function in functions {
        let name = function.name.as_slice();
        let hash = hash_of(name);
        if part_of(parts, hash) != part {
            continue;
        }
        let slot = (hash % PART) as usize;
        if !met[slot] {
            met[slot] = true;
        } else if count_named(functions, name) != 1 {
            return false;
        }
    }
    true
}

// A hash of 32 bits.
fn hash_of(name: &[u8]) -> u32
    ensures hash { result ≡ hash_of name.now }
{
    let mut hash = 0u32;
    for byte in name {
        let next = u64::from(hash) * 0x0100_0193 + u64::from(*byte);
        hash = (next % 0x1_0000_0000) as u32;
    }
    hash
}

// The part of a hash.
fn part_of(parts: usize, hash: u32) -> usize
    requires { 0 < parts }
    ensures { result ≡ part_of parts hash }
{
    (hash / PART) as usize % parts
}

/// How many functions have the name.
pub(crate) fn count_named(functions: &[TreeFn], name: &[u8]) -> usize
    ensures { result ≡ named name.now functions.now }
{
    functions
        .iter()
        .filter(|function| function.name.as_slice() == name)
        .count()
}
