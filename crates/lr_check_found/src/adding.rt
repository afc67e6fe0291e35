// What is added to what has been found.
ghost use Rattle.std.specs.Prelude.{◌≡◌, ◌<◌, ◌≤◌, ◌^◌, ◌∷◌, ◌++◌, [], ℕ, List, Option, Some, None, Contains, slice_get, length};
ghost use Rattle.std.specs.Prelude.{IfOk, IfErr, IsTrue, OnOk};
ghost use Rattle.gg_base.specs.declared.limits.TheConstants.{SUMMARY_LIMIT};
ghost use Rattle.md_reader.specs.declared.types.Sym.{Sym};
ghost use Rattle.lr_tables.specs.declared.types.Choice.{Choice};
ghost use Rattle.lr_check_found.specs.declared.settlings.Item.{Item};
ghost use Rattle.lr_check_sets.specs.Automaton.{Candidate, Free};
ghost use Rattle.lr_check_sets.specs.Table.{automaton_of};
ghost use Rattle.lr_check_found.specs.declared.adding.Stop.TheVariants.{Full};
ghost use Rattle.lr_check_found.specs.Lists.{AreLists, IsList};
ghost use Rattle.lr_check_found.specs.Found.{Grows};
ghost use Rattle.lr_check_found.specs.Items.{HasMade, IsItem, IsBehind};
ghost use Rattle.lr_check_found.specs.Sound.{IsFound};
ghost use Rattle.lr_check_found.specs.Choices.{LeadsOut};
ghost use Rattle.lr_check_found.specs.Adding.{IsRelisted, with_sum, held, with_listed, with_entry, settled, IsAdded, list_of};
ghost use Rattle.lr_check_found.specs.Adding.{list_number, upper_of, lower_of, IsWider, HasWayOut};
ghost use Rattle.lr_check_found.specs.Count.{HasMore};

use crate::choices::{candidate, free_choices};
use crate::found::{Found, Numbers};
use crate::places::{Origin, Place};
use crate::settlings::{How, Item, Settling};
use crate::table::put;
use gg_base::NoMemory;
use gg_base::limits::SUMMARY_LIMIT;
use lr_tables::{Choice, State, Tables};
use md_reader::{Rule, Sym};
use std::alloc::Global;
use tree_core::Tok;

/// Why nothing more is added: there is no memory, or there are more than `SUMMARY_LIMIT` sums.
#[derive(Clone, Copy, Debug)]
pub enum Stop {
    NoMemory,
    Full,
}

impl From<NoMemory> for Stop {
    ghost use Rattle.lr_check_found.specs.declared.adding.Stop.TheVariants as stops;

    ghost from_gives = { λ _ e. e ≡ stops.NoMemory };

    fn from(_: NoMemory) -> Self {
        Stop::NoMemory
    }
}

// Whether one of the choices leads out of a list of so many symbols.
fn one_leads_out(rules: &[Rule], choices: &[Choice], size: usize) -> bool
    ensures some { IsTrue result → (c : Choice) × (Contains choices.now c × LeadsOut rules.now size c) }
    ensures each { (c : Choice) → Contains choices.now c → LeadsOut rules.now size c → IsTrue result }
{
    choices
        .iter()
        .any(|choice| candidate(rules, *choice, size).leads_out())
}

// Whether some choice leads out of a list of so many symbols, with the token next.
fn leads_out(tables: &Tables, behind: &Option<State>, token: Tok, size: usize) -> bool
    ensures some { IsTrue result → HasWayOut (automaton_of tables.now) behind.now token size }
    ensures each { (p : ℕ) (c : Candidate) → behind.now ≡ Some p → Free ((automaton_of tables.now).candidates p token) c
        → IsWider c size → IsTrue result }
{
    match behind {
        Some(state) => {
            let rules = tables.description().rules();
            one_leads_out(
                rules,
                free_choices(rules, tables.action(*state, token)),
                size,
            )
        }
        None => false,
    }
}

impl Found {
    /// The number of a settling's list; that of the empty one, if there is no such settling.
    pub fn list_number(&self, settling: usize) -> usize
        ensures { result ≡ list_number self.now settling }
    {
        match self.settlings.get(settling) {
            Some(settling) => settling.list,
            None => 0,
        }
    }

    // The lists of the last kid and of the first of two.
    fn parts(&self, how: How) -> (usize, usize)
        ensures { result ≡ (upper_of self.now how, lower_of self.now how) }
    {
        match how {
            How::One(kid) => (self.list_number(kid), 0),
            How::Two(first, second) => (self.list_number(second), self.list_number(first)),
            _ => (0, 0),
        }
    }

    // The number of the list that settles so behind the token.
    fn list_by(&mut self, alloc: Global, token: Tok, how: How) -> Result<usize, NoMemory>
        requires lists { AreLists self.old.lists }
        requires upper { (s : List Sym) × IsList self.old.lists (upper_of self.old how) s }
        requires lower { (s : List Sym) × IsList self.old.lists (lower_of self.old how) s }
        ensures rest { IfOk result (λ n. IsRelisted self.old self.new) }
        ensures number { IfOk result (λ n. (u l : List Sym) → IsList self.old.lists (upper_of self.old how) u
            → IsList self.old.lists (lower_of self.old how) l → IsList self.new.lists n (list_of token how u l)) }
    {
        let (upper, lower) = self.parts(how);
        match how {
            How::Reduced(_, class) => self.lists.push(alloc, Sym::Class(class), 0),
            _ => self.lists.join_behind(alloc, token, upper, lower),
        }
    }

    // The state behind the list that settles so at the place.
    fn state_by(&self, tables: &Tables, place: &Place, how: How) -> Option<State>
        requires { (n : ℕ) × HasMade (automaton_of tables.now) self.now n how }
        ensures { IsBehind (automaton_of tables.now) self.now place.now how result }
    {
        match how {
            How::Leaf => tables.over(place.state, Sym::Tok(place.token)),
            How::One(kid) => self.settlings.get(kid)?.behind,
            How::Two(_, second) => self.settlings.get(second)?.behind,
            How::Reduced(_, class) => tables.over(place.state, Sym::Class(class)),
        }
    }

    fn add_place(&mut self, alloc: Global, place: Place, origin: Origin) -> Result<(), NoMemory>
        ensures { OnOk result (IsAdded self.old self.new place origin) }
    {
        if self.find(&place).is_some() {
            return Ok(());
        }
        put(&mut self.numbers, place.slot(), self.places.len())?;
        self.sums.push(Numbers::new(alloc))?;
        self.listed.push(Numbers::new(alloc))?;
        self.origins.push(origin)?;
        self.places.push(place)?;
        Ok(())
    }

    // The next settling is a sum of the place with the number.
    fn hold_sum(&mut self, place: usize) -> Result<(), NoMemory>
        requires within { place < length self.old.sums }
        requires room { self.old.tuples < 2 ^ 63 }
        ensures { OnOk result (self.new ≡ with_sum self.old place) }
    {
        let number = self.settlings.len();
        self.sums[place].push(number)?;
        self.tuples += 1;
        Ok(())
    }

    // The same, if it is one.
    fn hold_if(&mut self, is_sum: bool, place: usize) -> Result<(), NoMemory>
        requires within { place < length self.old.sums }
        requires room { self.old.tuples < 2 ^ 63 }
        ensures { OnOk result (self.new ≡ held self.old is_sum place) }
    {
        if is_sum {
            self.hold_sum(place)?;
        }
        Ok(())
    }

    // The list settles at the place with the number.
    fn hold_list(&mut self, place: usize, list: usize) -> Result<(), NoMemory>
        requires { place < length self.old.listed }
        ensures { OnOk result (self.new ≡ with_listed self.old place list) }
    {
        self.listed[place].push(list)?;
        Ok(())
    }

    fn hold(
        &mut self,
        place: usize,
        list: usize,
        behind: &Option<State>,
        is_sum: bool,
        how: How,
    ) -> Result<(), NoMemory>
        ensures { OnOk result (self.new ≡ with_entry self.old (record {
          place = place;
          list = list;
          behind = behind.now;
          is_sum = is_sum;
          how = how;
        })) }
    {
        self.settlings.push(Settling {
            place,
            list,
            behind: *behind,
            is_sum,
            how,
        })?;
        Ok(())
    }

    // One settling more, which isn't there.
    fn push_settling(&mut self, settling: &Settling) -> Result<(), NoMemory>
        requires within { settling.now.place < length self.old.sums }
        requires listed { settling.now.place < length self.old.listed }
        requires room { self.old.tuples < 2 ^ 63 }
        ensures { OnOk result (self.new ≡ settled self.old settling.now) }
    {
        self.hold_list(settling.place, settling.list)?;
        self.hold_if(settling.is_sum, settling.place)?;
        self.hold(
            settling.place,
            settling.list,
            &settling.behind,
            settling.is_sum,
            settling.how,
        )
    }

    fn add_settling(
        &mut self,
        alloc: Global,
        tables: &Tables,
        number: usize,
        how: How,
    ) -> Result<(), NoMemory>
        requires found { IsFound (automaton_of tables.now) self.old }
        requires made { HasMade (automaton_of tables.now) self.old number how }
        requires room { self.old.tuples < 2 ^ 63 }
        ensures found { OnOk result (IsFound (automaton_of tables.now) self.new) }
        ensures grows { OnOk result (Grows self.old self.new) }
    {
        let place = match self.places.get(number) {
            Some(place) => *place,
            None => return Ok(()),
        };
        let list = self.list_by(alloc, place.token, how)?;
        if self.settles(number, list) {
            return Ok(());
        }
        let behind = self.state_by(tables, &place, how);
        let size = self.lists.get(list).len();
        let is_sum = leads_out(tables, &behind, place.behind, size);
        let settling = Settling {
            place: number,
            list,
            behind,
            is_sum,
            how,
        };
        self.push_settling(&settling)
    }

    fn add(&mut self, alloc: Global, tables: &Tables, item: Item) -> Result<(), NoMemory>
        requires found { IsFound (automaton_of tables.now) self.old }
        requires item { IsItem (automaton_of tables.now) self.old item }
        requires room { self.old.tuples < 2 ^ 63 }
        ensures found { OnOk result (IsFound (automaton_of tables.now) self.new) }
        ensures grows { OnOk result (Grows self.old self.new) }
    {
        match item {
            Item::Place(place, origin) => self.add_place(alloc, place, origin),
            Item::Settling(number, how) => self.add_settling(alloc, tables, number, how),
        }
    }

    /// Adds what follows from what was found.
    pub fn add_all(&mut self, alloc: Global, tables: &Tables, items: &[Item]) -> Result<(), Stop>
        requires found { IsFound (automaton_of tables.now) self.old }
        requires items { (i : Item) → Contains items.now i → IsItem (automaton_of tables.now) self.old i }
        requires room { self.old.tuples ≤ SUMMARY_LIMIT }
        ensures found { OnOk result (IsFound (automaton_of tables.now) self.new) }
        ensures room { OnOk result (self.new.tuples ≤ SUMMARY_LIMIT) }
        // More than `SUMMARY_LIMIT` sums are sums of the tables.
        ensures full { IfErr result (λ e. e ≡ Full → HasMore (automaton_of tables.now) SUMMARY_LIMIT) }
    {
        for item in items {
            self.add(alloc, tables, *item)?;
            if self.tuples() > SUMMARY_LIMIT as usize {
                return Err(Stop::Full);
            }
        }
        Ok(())
    }
}
