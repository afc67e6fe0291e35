// From where branches come.
ghost use Rattle.std.specs.Prelude.{◌≡◌, ◌+◌, ◌<◌, ◌++◌, ◌∷◌, List, [], length, slice_index_or, replicate, IfOk, OnOk, IfSome};
ghost use Rattle.vax_codes.specs.Sources.{put_source, AreSources};

use crate::nexts::Nexts;
use gg_base::NoMemory;
use std::alloc::Global;
use std::marker::Model;
use vax_core::CodeItem;

// Places, in order.
#[derive(Drop)]
struct Places {
    held: Vec<usize>,
}

impl Model for Places {
    ghost use Rattle.std.specs.Prelude.{ℕ, List};

    ghost Value = { List ℕ };

    ghost view = { λ p. p.held.items };
}

impl Places {
    fn new(alloc: Global) -> Self
        ensures { result ≡ [] }
    {
        Places {
            held: Vec::new(alloc),
        }
    }

    fn push(&mut self, place: usize) -> Result<(), NoMemory>
        ensures { OnOk result (self.new ≡ self.old ++ place ∷ []) }
    {
        self.held.push(place)?;
        Ok(())
    }

    fn as_slice(&self) -> &[usize]
        ensures { result.now ≡ self.now }
    {
        &self.held
    }
}

/// For each place of a code, and the one behind it, the branches to whose labels it is the next item.
#[derive(Drop)]
pub struct Sources {
    goals: Vec<Places>,
}

impl Model for Sources {
    ghost use Rattle.std.specs.Prelude.{ℕ, List};

    ghost Value = { List (List ℕ) };

    ghost view = { λ s. s.goals.items };
}

impl Sources {
    fn none(alloc: Global, places: usize) -> Result<Self, NoMemory>
        ensures { IfOk result (λ s. s ≡ replicate places []) }
    {
        let mut goals = Vec::new(alloc);
        for _ in 0..places {
            goals.push(Places::new(alloc))?;
        }
        Ok(Sources { goals })
    }

    // The branch at a place goes somewhere, or there is none at this place.
    fn put(&mut self, goal: Option<usize>, place: usize) -> Result<(), NoMemory>
        requires { IfSome goal (λ g. g < length self.old) }
        ensures { OnOk result (self.new ≡ put_source self.old goal place) }
    {
        match goal {
            None => Ok(()),
            Some(goal) => {
                self.goals[goal].push(place)?;
                Ok(())
            }
        }
    }

    /// The branches of a code, by where they go.
    pub(crate) fn of(alloc: Global, items: &[CodeItem]) -> Result<Self, NoMemory>
        ensures { IfOk result (λ s. AreSources items.now s) }
    {
        let nexts = Nexts::of(alloc, items)?;
        let mut sources = Sources::none(alloc, items.len() + 1)?;
        for (place, item) in items.iter().enumerate() {
            sources.put(nexts.goal(item), place)?;
        }
        Ok(sources)
    }

    /// The places of the branches that go to a place.
    pub(crate) fn to(&self, place: usize) -> &[usize]
        ensures { result.now ≡ slice_index_or self.now place [] }
    {
        match self.goals.get(place) {
            Some(places) => places.as_slice(),
            None => &[],
        }
    }
}
