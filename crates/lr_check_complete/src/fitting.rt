// Whether an item follows from what was found.
ghost use Rattle.std.specs.Prelude.{◌≡◌, Some, List, IsTrue, IfSome, Contains};
ghost use Rattle.md_reader.specs.declared.types.Sym.{Sym};
ghost use Rattle.md_reader.specs.declared.types.Sym.TheVariants as grammar_symbol;
ghost use Rattle.lr_check_found.specs.declared.places.Origin.TheVariants as origin;
ghost use Rattle.lr_check_found.specs.declared.settlings.How.TheVariants as how;
ghost use Rattle.lr_tables.specs.declared.types.Choice.{Choice};
ghost use Rattle.lr_check_found.specs.declared.choices.Leads.TheVariants.{Whole};
ghost use Rattle.lr_check_found.specs.Choices.{seen};
ghost use Rattle.lr_check_found.specs.Found.{IsPlaceAt, IsSettlingAt, SumAt};
ghost use Rattle.lr_check_found.specs.Items.{Fits, Begun, HasMade, IsItem};
ghost use Rattle.lr_check_complete.specs.Looks.{automaton, WasFound};

use crate::look::Look;
use lr_check_found::{How, Item, Leads, Origin, Place, Settling, candidate, free_choices, may};
use lr_tables::{Choice, State, number};
use md_reader::{Rule, Sym};
use tree_core::{Sort, Tok};

// Whether a subtree at the place may be the kid of this sort in the state, with the token behind.
fn fits(place: &Place, wanted: Sort, state: State, behind: Tok) -> bool
    ensures { IsTrue result → Fits place.now wanted state behind }
{
    if place.state.number() != state.number() {
        return false;
    }
    if number(place.behind) != number(behind) {
        return false;
    }
    may(place.token, wanted)
}

// Whether the choice makes the class of a list of so many symbols.
fn makes(rules: &[Rule], choice: Choice, size: usize, class: u16) -> bool
    ensures { IsTrue result → (seen rules.now size choice).leads ≡ Whole class }
{
    match candidate(rules, choice, size).leads {
        Leads::Whole(made) => made == class,
        Leads::Out(_) => false,
        Leads::Inside => false,
    }
}

fn some_makes(rules: &[Rule], choices: &[Choice], size: usize, class: u16) -> bool
    ensures { IsTrue result → (c : Choice) × (Contains choices.now c × ((seen rules.now size c).leads ≡ Whole class)) }
{
    choices
        .iter()
        .any(|choice| makes(rules, *choice, size, class))
}

impl<'a> Look<'a> {
    // The place with the number, and the state to which its token leads.
    fn parent(&self, number: usize) -> Option<(Place, State)>
        ensures { IfSome result (λ r. IsPlaceAt self.now.found.now number r.0
            × ((automaton self.now).go r.0.state (grammar_symbol.Tok r.0.token) ≡ Some r.1)) }
    {
        match self.found.places().get(number) {
            Some(place) => match self.tables.over(place.state, Sym::Tok(place.token)) {
                Some(over) => Some((*place, over)),
                None => None,
            },
            None => None,
        }
    }

    // The place of the sum with the number, and the state behind it.
    fn sum_at(&self, number: usize) -> Option<(Place, State)>
        requires { WasFound self.now }
        ensures { IfSome result (λ r. (s : List Sym) × SumAt self.now.found.now number r.0 s r.1) }
    {
        let settling = match self.found.settlings().get(number) {
            Some(settling) => *settling,
            None => return None,
        };
        let behind = match settling.behind {
            Some(behind) => behind,
            None => return None,
        };
        if !settling.is_sum {
            return None;
        }
        match self.found.places().get(settling.place) {
            Some(place) => Some((*place, behind)),
            None => None,
        }
    }

    // Whether the place begins as the first kid of the place with the number.
    fn is_first(&self, place: &Place, parent: usize) -> bool
        ensures { IsTrue result → Begun (automaton self.now) self.now.found.now place.now (origin.First parent) }
    {
        let (above, over) = match self.parent(parent) {
            Some(found) => found,
            None => return false,
        };
        let kids = above.token.kids();
        if kids.len() == 1 {
            return fits(place, kids[0], over, above.behind);
        }
        if kids.len() == 2 {
            if !may(place.behind, kids[1]) {
                return false;
            }
            return fits(place, kids[0], over, place.behind);
        }
        false
    }

    // Whether it begins as the second kid, behind the sum of the first.
    fn is_second(&self, place: &Place, parent: usize, first: usize) -> bool
        requires { WasFound self.now }
        ensures { IsTrue result → Begun (automaton self.now) self.now.found.now place.now (origin.Second parent first) }
    {
        let (above, over) = match self.parent(parent) {
            Some(found) => found,
            None => return false,
        };
        let (kid, behind) = match self.sum_at(first) {
            Some(found) => found,
            None => return false,
        };
        let kids = above.token.kids();
        if kids.len() != 2 {
            return false;
        }
        if !fits(&kid, kids[0], over, place.token) {
            return false;
        }
        fits(place, kids[1], behind, above.behind)
    }

    fn is_leaf(&self, number: usize) -> bool
        ensures { IsTrue result → HasMade (automaton self.now) self.now.found.now number how.Leaf }
    {
        match self.parent(number) {
            Some((place, _)) => place.token.kids().len() == 0,
            None => false,
        }
    }

    fn is_one(&self, number: usize, kid: usize) -> bool
        requires { WasFound self.now }
        ensures { IsTrue result → HasMade (automaton self.now) self.now.found.now number (how.One kid) }
    {
        let (above, over) = match self.parent(number) {
            Some(found) => found,
            None => return false,
        };
        let (place, _) = match self.sum_at(kid) {
            Some(found) => found,
            None => return false,
        };
        let kids = above.token.kids();
        if kids.len() != 1 {
            return false;
        }
        fits(&place, kids[0], over, above.behind)
    }

    fn is_two(&self, number: usize, first: usize, second: usize) -> bool
        requires { WasFound self.now }
        ensures { IsTrue result → HasMade (automaton self.now) self.now.found.now number (how.Two first second) }
    {
        let (above, over) = match self.parent(number) {
            Some(found) => found,
            None => return false,
        };
        let (kid, behind) = match self.sum_at(first) {
            Some(found) => found,
            None => return false,
        };
        let (other, _) = match self.sum_at(second) {
            Some(found) => found,
            None => return false,
        };
        let kids = above.token.kids();
        if kids.len() != 2 {
            return false;
        }
        if !fits(&kid, kids[0], over, other.token) {
            return false;
        }
        fits(&other, kids[1], behind, above.behind)
    }

    // Whether the settling's whole list is reduced to the class.
    fn is_made_of(&self, number: usize, whole: usize, settling: &Settling, class: u16) -> bool
        requires { WasFound self.now }
        ensures { IsTrue result → IsSettlingAt self.now.found.now whole settling.now →
            HasMade (automaton self.now) self.now.found.now number (how.Reduced whole class) }
    {
        let state = match settling.behind {
            Some(state) => state,
            None => return false,
        };
        let place = match self.found.places().get(settling.place) {
            Some(place) => *place,
            None => return false,
        };
        if settling.place != number {
            return false;
        }
        let rules = self.tables.description().rules();
        let free = free_choices(rules, self.tables.action(state, place.behind));
        let size = self.found.lists().get(settling.list).len();
        some_makes(rules, free, size, class)
    }

    fn is_reduction(&self, number: usize, whole: usize, class: u16) -> bool
        requires { WasFound self.now }
        ensures { IsTrue result → HasMade (automaton self.now) self.now.found.now number (how.Reduced whole class) }
    {
        match self.found.settlings().get(whole) {
            Some(settling) => self.is_made_of(number, whole, settling, class),
            None => false,
        }
    }

    // Whether the place begins so.
    fn is_begun(&self, place: &Place, origin: Origin) -> bool
        requires { WasFound self.now }
        ensures { IsTrue result → Begun (automaton self.now) self.now.found.now place.now origin }
    {
        match origin {
            Origin::Root => fits(place, Sort::Stmt, State::START, Tok::End),
            Origin::First(parent) => self.is_first(place, parent),
            Origin::Second(parent, first) => self.is_second(place, parent, first),
        }
    }

    fn is_made(&self, number: usize, how: How) -> bool
        requires { WasFound self.now }
        ensures { IsTrue result → HasMade (automaton self.now) self.now.found.now number how }
    {
        match how {
            How::Leaf => self.is_leaf(number),
            How::One(kid) => self.is_one(number, kid),
            How::Two(first, second) => self.is_two(number, first, second),
            How::Reduced(whole, class) => self.is_reduction(number, whole, class),
        }
    }

    /// Whether the item follows from what was found.
    pub fn follows(&self, item: &Item) -> bool
        requires { WasFound self.now }
        ensures { IsTrue result → IsItem (automaton self.now) self.now.found.now item.now }
    {
        match *item {
            Item::Place(place, origin) => self.is_begun(&place, origin),
            Item::Settling(number, how) => self.is_made(number, how),
        }
    }
}
