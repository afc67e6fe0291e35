// What has been found.
ghost use Rattle.std.specs.Prelude.{◌≡◌, ℕ, ◌<◌, ◌+◌, ◌*◌, List, [], ◌++◌, ◌∷◌, Some, OnOk, None, slice_get, slice_index_or, IfOk};
ghost use Rattle.std.specs.Prelude.{IfSome, IfNone, IsTrue, length};
ghost use Rattle.md_reader.specs.declared.types.Sym.{Sym};
ghost use Rattle.lr_check_found.specs.declared.settlings.Settling.{Settling};
ghost use Rattle.lr_check_sets.specs.Automaton.{Automaton};
ghost use Rattle.lr_check_found.specs.Lists.{AreLists, IsList};
ghost use Rattle.lr_check_found.specs.Found.{FoundView, slot, IsPlaceAt, IsSettlingAt, Settles};
ghost use Rattle.lr_check_found.specs.Sound.{IsFound};

use crate::lists::Lists;
use crate::places::{Origin, Place};
use crate::settlings::Settling;
use crate::table::has_number;
use gg_base::NoMemory;
use std::alloc::Global;
use std::marker::Model;

// Numbers that are held of a place: of its settlings that are sums, or of the lists that settle there.
#[derive(Drop)]
pub(crate) struct Numbers {
    held: Vec<usize>,
}

impl Model for Numbers {
    ghost use Rattle.std.specs.Prelude.{ℕ, List};

    ghost Value = { List ℕ };

    ghost view = { λ s. s.held.items };
}

impl Numbers {
    pub fn new(alloc: Global) -> Self
        ensures { result ≡ [] }
    {
        Numbers {
            held: Vec::new(alloc),
        }
    }

    pub fn push(&mut self, number: usize) -> Result<(), NoMemory>
        ensures { OnOk result (self.new ≡ self.old ++ number ∷ []) }
    {
        self.held.push(number)?;
        Ok(())
    }

    pub fn as_slice(&self) -> &[usize]
        ensures { result.now ≡ self.now }
    {
        &self.held
    }
}

/// Places and the lists that settle there, numbered as they are found, each with how it was found.
#[derive(Drop)]
pub struct Found {
    pub(crate) lists: Lists,
    pub(crate) numbers: Vec<Option<usize>>,
    pub(crate) places: Vec<Place>,
    pub(crate) origins: Vec<Origin>,
    pub(crate) sums: Vec<Numbers>,
    pub(crate) listed: Vec<Numbers>,
    pub(crate) settlings: Vec<Settling>,
    pub(crate) tuples: usize,
}

impl Model for Found {
    ghost use Rattle.lr_check_found.specs.Found.{FoundView};

    ghost Value = { FoundView };

    ghost view = { λ f. record {
      lists = f.lists;
      numbers = f.numbers.items;
      places = f.places.items;
      origins = f.origins.items;
      sums = f.sums.items;
      listed = f.listed.items;
      settlings = f.settlings.items;
      tuples = f.tuples;
    } };
}

impl Found {
    /// Nothing.
    pub fn new(alloc: Global) -> Result<Self, NoMemory>
        ensures found { IfOk result (λ f. (A : Automaton) → IsFound A f) }
        ensures none { IfOk result (λ f. f.tuples ≡ 0) }
    {
        Ok(Found {
            lists: Lists::new(alloc)?,
            numbers: Vec::new(alloc),
            places: Vec::new(alloc),
            origins: Vec::new(alloc),
            sums: Vec::new(alloc),
            listed: Vec::new(alloc),
            settlings: Vec::new(alloc),
            tuples: 0,
        })
    }

    pub fn lists(&self) -> &Lists
        ensures { result.now ≡ self.now.lists }
    {
        &self.lists
    }

    /// The places, by number.
    pub fn places(&self) -> &[Place]
        ensures { result.now ≡ self.now.places }
    {
        &self.places
    }

    /// How each place was found.
    pub fn origins(&self) -> &[Origin]
        ensures { result.now ≡ self.now.origins }
    {
        &self.origins
    }

    /// The settlings, by number.
    pub fn settlings(&self) -> &[Settling]
        ensures { result.now ≡ self.now.settlings }
    {
        &self.settlings
    }

    /// How many settlings are sums.
    pub fn tuples(&self) -> usize
        ensures { result ≡ self.now.tuples }
    {
        self.tuples
    }

    /// How many states may have places: there are 1,600 numbers for each.
    pub fn states(&self) -> usize
        ensures { length self.now.numbers < (result + 1) * 1600 }
    {
        self.numbers.len() / 1_600
    }

    /// The settlings of the place with the number that are sums.
    pub fn sums(&self, number: usize) -> &[usize]
        ensures { result.now ≡ slice_index_or self.now.sums number [] }
    {
        match self.sums.get(number) {
            Some(sums) => sums.as_slice(),
            None => &[],
        }
    }

    // The numbers of the lists that settle at the place with the number.
    fn listed(&self, number: usize) -> &[usize]
        ensures { result.now ≡ slice_index_or self.now.listed number [] }
    {
        match self.listed.get(number) {
            Some(listed) => listed.as_slice(),
            None => &[],
        }
    }

    fn number_at(&self, at: usize) -> Option<usize>
        ensures { result ≡ slice_index_or self.now.numbers at None }
    {
        match self.numbers.get(at) {
            Some(number) => *number,
            None => None,
        }
    }

    /// The number of the place, if it is found.
    pub fn find(&self, place: &Place) -> Option<usize>
        ensures there { IfSome result (λ n. IsPlaceAt self.now n place.now) }
        ensures absent { IfNone result ((A : Automaton) (n : ℕ) → IsFound A self.now → IsPlaceAt self.now n place.now → ⊥) }
    {
        let number = self.number_at(place.slot())?;
        let found = self.places.get(number)?;
        if found.is(place) { Some(number) } else { None }
    }

    /// Whether the list with the number settles at the place with the number.
    pub fn settles(&self, place: usize, list: usize) -> bool
        ensures there { (A : Automaton) → IsFound A self.now → IsTrue result → (s : List Sym) → IsList self.now.lists list s
            → Settles self.now place s }
        ensures absent { (A : Automaton) (i : ℕ) (e : Settling) → IsFound A self.now → IsSettlingAt self.now i e → e.place
            ≡ place → e.list ≡ list → IsTrue result }
    {
        has_number(self.listed(place), list)
    }
}
