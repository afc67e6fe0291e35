// Changes as passes.
ghost use Rattle.std.specs.Prelude.{◌≡◌, ◌≤◌, true, IfOk, OnOk};
ghost use Rattle.vax_core.specs.Valid.{is_code};
ghost use Rattle.vax_validated.specs.Judged.{AreShown};

use crate::change::Change;
use crate::functions::put_back;
use crate::judging::{Verdict, judge};
use crate::sameness::same_items;
use gg_base::NoMemory;
use std::alloc::Global;
use vax_alike::laws::alike_is_same;
use vax_core::Code;
use vax_pairs_search::Heads;
use vax_passes::Pass;

/// A change as a pass: what it makes of a code is taken where it is shown to behave alike, else with old functions in place of those that
/// go apart, else not at all.
#[derive(Drop)]
pub struct Validated<C: Change> {
    alloc: Global,
    change: C,
    made: u64,
    refused: u64,
}

// The code in which functions that go apart from the old code at these places are the old ones, where it is shown.
fn joined(
    alloc: Global,
    heads: Heads,
    code: &Code,
    changed: &Code,
    places: &[usize],
) -> Result<Option<Code>, NoMemory>
    requires { is_code code.now ≡ true }
    ensures { IfOk result (AreShown code.now) }
{
    let joined = put_back(alloc, code, changed, places)?;
    if same_items(code.items.as_slice(), joined.items.as_slice()) {
        return Ok(None);
    }
    match judge(alloc, heads, code, &joined)? {
        Verdict::Alike => Ok(Some(joined)),
        Verdict::Apart(_) | Verdict::Open => Ok(None),
    }
}

impl<C: Change> Validated<C> {
    /// The change as a pass that has made no changes.
    pub fn new(alloc: Global, change: C) -> Self
        ensures { result.made ≡ 0 }
    {
        Validated {
            alloc,
            change,
            made: 0,
            refused: 0,
        }
    }

    /// How many of the codes that the change made were not taken as they were.
    pub fn refused(&self) -> u64 {
        self.refused
    }

    // One more code was not taken as it was.
    fn refuse(&mut self)
        ensures { self.new.made ≡ self.old.made }
    {
        self.refused = self.refused.saturating_add(1);
    }

    // What is taken of a changed code.
    fn taken(&mut self, code: &Code, changed: Code) -> Result<Option<Code>, NoMemory>
        requires { is_code code.now ≡ true }
        ensures shown { IfOk result (AreShown code.now) }
        ensures made { self.new.made ≡ self.old.made }
    {
        let alloc = self.alloc;
        let apart = match judge(alloc, Heads::Loops, code, &changed)? {
            Verdict::Alike => return Ok(Some(changed)),
            Verdict::Apart(places) => places,
            Verdict::Open => {
                self.refuse();
                return Ok(None);
            }
        };
        if let Verdict::Alike = judge(alloc, Heads::All, code, &changed)? {
            return Ok(Some(changed));
        }
        self.refuse();
        joined(alloc, Heads::Loops, code, &changed, &apart)
    }
}

impl<C: Change> Pass for Validated<C> {
    ghost made = { λ p. p.made };

    ghost wrote = { λ p n c d. p.made ≤ n };

    fn rewrite(&mut self, code: Code) -> Result<Code, NoMemory> {
        alike_is_same();
        if self.made == u64::MAX {
            return Ok(code);
        }
        let changed = self.change.change(self.alloc, &code)?;
        if same_items(code.items.as_slice(), changed.items.as_slice()) {
            return Ok(code);
        }
        match self.taken(&code, changed)? {
            None => Ok(code),
            Some(taken) => {
                self.made += 1;
                Ok(taken)
            }
        }
    }

    fn changes(&self) -> u64 {
        self.made
    }
}
