// The places at which a subtree may begin.
ghost use Rattle.std.specs.Prelude.{◌≡◌, IsTrue};
ghost use Rattle.lr_check_sets.specs.Trees.{may};
ghost use Rattle.lr_check_found.specs.Found.{slot};

use lr_tables::{State, number};
use tree_core::{Sort, Tok};

/// Whether a tree that begins with the token may stand where the sort is wanted.
pub fn may(token: Tok, wanted: Sort) -> bool
    ensures { result ≡ may token wanted }
{
    match token.sort() {
        Some(sort) => sort.fits(wanted),
        None => false,
    }
}

/// A place: a subtree that begins with the token may begin in the state, with a token behind it.
#[derive(Clone, Copy, Debug)]
pub struct Place {
    pub state: State,
    pub token: Tok,
    pub behind: Tok,
}

/// How a place was found: for the whole tree, for the first kid of a place's token, or for its second
/// behind the first kid's settling. Places and settlings stand by their numbers.
#[derive(Clone, Copy, Debug)]
pub enum Origin {
    Root,
    First(usize),
    Second(usize, usize),
}

impl Place {
    /// Whether it is the same place.
    pub(crate) fn is(&self, other: &Place) -> bool
        ensures same { IsTrue result → self.now ≡ other.now }
        ensures back { self.now ≡ other.now → IsTrue result }
    {
        if self.state.number() != other.state.number() {
            return false;
        }
        if number(self.token) != number(other.token) {
            return false;
        }
        number(self.behind) == number(other.behind)
    }

    /// Where its number is held: there are 40 tokens.
    pub(crate) fn slot(&self) -> usize
        ensures { result ≡ slot self.now }
    {
        let state = self.state.number() as usize;
        (state * 40 + number(self.token)) * 40 + number(self.behind)
    }
}
