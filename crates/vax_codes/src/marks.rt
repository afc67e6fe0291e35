// A set of places that grows until it is closed: a work list.
ghost use Rattle.std.specs.Prelude.{◌≡◌, ◌<◌, length, MatchOption, IfOk, OnOk, true};
ghost use Rattle.std.specs.List.{All};
ghost use Rattle.vax_codes.specs.Marks.{Adds, Empty, Rests, Takes, is_in};

use gg_base::NoMemory;
use std::alloc::Global;

/// The places that are in the set, and those of them of which it hasn't yet been asked what else they bring into it.
#[derive(Drop)]
pub struct Marks {
    marked: Vec<bool>,
    waiting: Vec<usize>,
}

impl Marks {
    /// No place is in the set; there are so many.
    pub(crate) fn none(alloc: Global, places: usize) -> Result<Self, NoMemory>
        ensures { IfOk result (λ m. Empty m places) }
    {
        Ok(Marks {
            marked: vec![in alloc; false; places]?,
            waiting: Vec::new(alloc),
        })
    }

    /// A place more.
    pub(crate) fn add(&mut self, place: usize) -> Result<(), NoMemory>
        requires { place < length self.old.marked.items }
        ensures { OnOk result (Adds (λ p. p ≡ place) self.old self.new) }
    {
        if self.marked[place] {
            return Ok(());
        }
        self.waiting.push(place)?;
        self.marked[place] = true;
        Ok(())
    }

    /// Some places more.
    pub(crate) fn add_all(&mut self, places: &[usize]) -> Result<(), NoMemory>
        requires { All (λ p. p < length self.old.marked.items) places.now }
        ensures { OnOk result (Adds (λ p. is_in p places.now ≡ true) self.old self.new) }
    {
        for place in places {
            self.add(*place)?;
        }
        Ok(())
    }

    /// A place that is to be asked about.
    pub(crate) fn take(&mut self) -> Option<usize>
        ensures { MatchOption result (Rests self.old self.new) (λ p. Takes p self.old self.new) }
    {
        self.waiting.pop()
    }

    /// For each place whether it is in the set.
    pub(crate) fn into_marked(self) -> Vec<bool>
        ensures { result.items ≡ self.marked.items }
    {
        self.marked
    }
}
