// Two codes with a certificate: the cuts at which pieces end.
ghost use Rattle.std.specs.Prelude.{◌≡◌, ◌<◌, ◌⊎◌, true, [], map, List, IfOk, OnOk};
ghost use Rattle.vax_pairs.specs.Facts as known;
ghost use Rattle.vax_pairs.specs.Facts.{AreSo};
ghost use Rattle.vax_machine.specs.Labels.{label_place};
ghost use Rattle.vax_pairs.specs.SameTrees.{SameArrival, SameCall, SameReturn};
ghost use Rattle.vax_pairs_checked.specs.Accepted.{IsCut};
ghost use Rattle.vax_pairs_walk.specs.Views.{state_of};
ghost use Rattle.vax_pairs_same.specs.Parts.{IsEntry, BothEnter};
ghost use Rattle.vax_pairs_cuts.specs.Views.{fact_of, cut_of};

use crate::doubt::Doubt;
use crate::states::{facts_hold, facts_last, same_control, same_result};
use std::alloc::Global;
use vax_core::CodeItem;
use vax_pairs_cuts::cut::Cut;
use vax_pairs_cuts::fact::Fact;
use vax_pairs_walk::code::Walk;
use vax_pairs_walk::state::State;

/// Two codes with a certificate, and where memory is taken from.
#[derive(Clone, Copy)]
pub struct Pair<'a> {
    pub alloc: Global,
    pub cuts: &'a [Cut],
    pub first: Walk<'a>,
    pub second: Walk<'a>,
}

// Both have done a step, or the number falls.
fn nears(moved: bool, others_moved: bool, near: u32, rank: u32) -> Result<(), Doubt>
    ensures { OnOk result (((moved ≡ true) × (others_moved ≡ true)) ⊎ (near < rank)) }
{
    if near < rank {
        return Ok(());
    }
    match (moved, others_moved) {
        (true, true) => Ok(()),
        _ => Err(Doubt::NotShown),
    }
}

// Where a function begins: the place behind its entry mask, and that mask.
#[derive(Clone, Copy)]
struct Entry {
    place: usize,
    mask: u16,
}

// The function of that name.
fn entry_of(walk: Walk<'_>, name: &[u8]) -> Result<Entry, Doubt>
    ensures { IfOk result (λ e. IsEntry walk.entry.items.now (label_place walk.entry.items.now name.now) e.place e.mask) }
{
    let place = walk.next_item(walk.label_place(name));
    match walk.items.get(place) {
        Some(CodeItem::Mask(mask)) => Ok(Entry {
            place: place + 1,
            mask: *mask,
        }),
        _ => Err(Doubt::NotShown),
    }
}

fn same_mask(a: Entry, b: Entry) -> Result<(), Doubt>
    ensures { OnOk result (a.mask ≡ b.mask) }
{
    if a.mask == b.mask {
        return Ok(());
    }
    Err(Doubt::NotShown)
}

fn nothing_known(facts: &[Fact]) -> Result<(), Doubt>
    ensures { OnOk result (map fact_of facts.now ≡ []) }
{
    match facts {
        [] => Ok(()),
        _ => Err(Doubt::NotShown),
    }
}

impl<'a> Pair<'a> {
    /// The cut of these two places.
    pub fn cut_at(self, first: usize, second: usize) -> Result<&'a Cut, Doubt>
        ensures { IfOk result (λ c. IsCut (map cut_of self.entry.cuts.now) c.now.rank first second (map fact_of c.now.facts.items)) }
    {
        let mut low = 0;
        let mut high = self.cuts.len();
        while low < high {
            let middle = low + (high - low) / 2;
            let cut = &self.cuts[middle];
            if cut.first == first && cut.second == second {
                return Ok(cut);
            }
            if cut.first < first || cut.first == first && cut.second < second {
                low = middle + 1;
            } else {
                high = middle;
            }
        }
        Err(Doubt::NotShown)
    }

    /// Both pieces arrive at a cut, and its facts hold.
    pub fn same_arrival(
        self,
        rank: u32,
        moved: (bool, bool),
        places: (usize, usize),
        s: &State,
        t: &State,
    ) -> Result<(), Doubt>
        ensures { OnOk result (SameArrival (List known.Fact) AreSo (IsCut (map cut_of self.entry.cuts.now))
            self.entry.first.items.now self.entry.second.items.now
            rank moved.0 moved.1 places.0 places.1 (state_of s.now) (state_of t.now)) }
    {
        let cut = self.cut_at(places.0, places.1)?;
        nears(moved.0, moved.1, cut.rank, rank)?;
        same_control(self.alloc, s, t)?;
        facts_hold(self.alloc, &cut.facts, s, t)?;
        Ok(())
    }

    /// Calls of a function come behind one mask to a cut at which nothing is known.
    pub fn both_enter(self, name: &[u8]) -> Result<(), Doubt>
        ensures { OnOk result (BothEnter (map cut_of self.entry.cuts.now) self.entry.first.items.now self.entry.second.items.now
            (label_place self.entry.first.items.now name.now) (label_place self.entry.second.items.now name.now)) }
    {
        let mine = entry_of(self.first, name)?;
        let others = entry_of(self.second, name)?;
        same_mask(mine, others)?;
        let cut = self.cut_at(mine.place, others.place)?;
        nothing_known(&cut.facts)?;
        Ok(())
    }

    /// Both pieces call one function, and come back to a cut whose facts hold behind the call.
    pub fn same_call(
        self,
        name: &[u8],
        places: (usize, usize),
        s: &State,
        t: &State,
    ) -> Result<(), Doubt>
        ensures { OnOk result (SameCall (List known.Fact) AreSo (IsCut (map cut_of self.entry.cuts.now)) self.entry.first.items.now self.entry.second.items.now
            name.now places.0 places.1 (state_of s.now) (state_of t.now)) }
    {
        self.both_enter(name)?;
        let cut = self.cut_at(places.0, places.1)?;
        same_control(self.alloc, s, t)?;
        facts_last(self.alloc, &cut.facts, s, t)?;
        Ok(())
    }

    /// Both pieces return with one result.
    pub fn same_return(self, s: &State, t: &State) -> Result<(), Doubt>
        ensures { OnOk result (SameReturn (List known.Fact) AreSo (IsCut (map cut_of self.entry.cuts.now))
            self.entry.first.items.now self.entry.second.items.now (state_of s.now) (state_of t.now)) }
    {
        same_control(self.alloc, s, t)?;
        same_result(self.alloc, s, t)?;
        Ok(())
    }
}
