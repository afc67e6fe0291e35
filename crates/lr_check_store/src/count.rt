// How many sums are held.
ghost use Rattle.std.specs.Prelude.{◌≡◌, ◌+◌, ◌<◌, ◌≤◌, ℕ, cond, IfSome, IsTrue, length, slice_index_or, sum_by};
ghost use Rattle.gg_base.specs.declared.limits.TheConstants.{SUMMARY_LIMIT};
ghost use Rattle.tree_core.specs.declared.token.Tok.{Tok};
ghost use Rattle.lr_tables.specs.Symbols.{number};
ghost use Rattle.lr_check_found.specs.lr_check_sets.specs.Automaton.{Automaton};
ghost use Rattle.lr_check_store.specs.Store.{IsSound};
ghost use Rattle.lr_check_store.specs.Counted.{is_in, size_of, size_of_line, size_of_row, IsCounted};

use crate::store::Store;
use gg_base::limits::SUMMARY_LIMIT;
use lr_check_rows::{Line, Row};
use lr_check_ways::has;
use lr_tables::number;
use tree_core::{Tok, tokens};

// Whether each token stands where its number says.
fn are_in_order(behinds: &[Tok]) -> bool
    ensures { IsTrue result → (i : ℕ) (d : Tok) → i < length behinds.now → number (slice_index_or behinds.now i d) ≡ i }
{
    for at in 0..behinds.len() {
        if number(behinds[at]) != at {
            return false;
        }
    }
    true
}

// One, if the token is in the set.
fn one_if(set: u64, token: Tok) -> usize
    ensures { result ≡ cond (is_in set token) 1 0 }
{
    if has(set, token) { 1 } else { 0 }
}

// How many of the tokens are in the set.
fn size_of(behinds: &[Tok], set: u64) -> usize
    ensures many { result ≡ size_of behinds.now set }
    ensures few { result ≤ length behinds.now }
{
    let mut size = 0;
    for token in behinds {
        size += one_if(set, *token);
    }
    size
}

// So many sums, and those of the lines; none, if there are more than `SUMMARY_LIMIT`.
fn with_lines(behinds: &[Tok], lines: &[Line], before: usize) -> Option<usize>
    requires { before ≤ SUMMARY_LIMIT }
    ensures many { IfSome result (λ n. n ≡ before + sum_by (size_of_line behinds.now) lines.now) }
    ensures few { IfSome result (λ n. n ≤ SUMMARY_LIMIT) }
{
    let mut size = before;
    for line in lines {
        size += size_of(behinds, line.sums);
        if size > SUMMARY_LIMIT as usize {
            return None;
        }
    }
    Some(size)
}

fn size_of_rows(behinds: &[Tok], rows: &[Row]) -> Option<usize>
    ensures many { IfSome result (λ n. n ≡ sum_by (size_of_row behinds.now) rows.now) }
    ensures few { IfSome result (λ n. n ≤ SUMMARY_LIMIT) }
{
    let mut size = 0;
    for row in rows {
        size = match with_lines(behinds, &row.lines, size) {
            Some(size) => size,
            None => return None,
        };
    }
    Some(size)
}

impl Store {
    /// How many sums are held, if there are no more than `SUMMARY_LIMIT`.
    pub fn count(&self) -> Option<usize>
        ensures counted { (A : Automaton) → IsSound A self.now → IfSome result (λ n. IsCounted self.now n) }
        ensures few { IfSome result (λ n. n ≤ SUMMARY_LIMIT) }
    {
        let behinds = tokens();
        if !are_in_order(behinds) {
            return None;
        }
        size_of_rows(behinds, &self.rows)
    }
}
