// Whether a list that follows settles at a place.
ghost use Rattle.std.specs.Prelude.{◌≡◌, ◌∷◌, ◌++◌, [], List, OnOk, IsTrue};
ghost use Rattle.md_reader.specs.declared.types.Sym.{Sym};
ghost use Rattle.md_reader.specs.declared.types.Sym.TheVariants as grammar_symbol;
ghost use Rattle.lr_check_found.specs.Lists.{IsList};
ghost use Rattle.lr_check_found.specs.Found.{Settles};
ghost use Rattle.lr_check_found.specs.Items.{HasMade};
ghost use Rattle.lr_check_complete.specs.Looks.{automaton, WasFound, Looks};

use crate::look::Look;
use gg_base::NoMemory;
use lr_check_found::{How, Item};
use tree_core::Tok;

impl<'a> Look<'a> {
    // Whether the lists with the numbers, on top of each other and the token, settle at the place.
    fn is_settled(&self, number: usize, token: Tok, upper: usize, lower: usize) -> bool
        requires { WasFound self.now }
        ensures { IsTrue result → (u l : List Sym) → IsList self.now.found.now.lists upper u → IsList self.now.found.now.lists lower l →
            Settles self.now.found.now number (u ++ (l ++ (grammar_symbol.Tok token ∷ []))) }
    {
        match self.found.lists().find_behind(token, upper, lower) {
            Some(list) => self.found.settles(number, list),
            None => false,
        }
    }

    /// The list that settles so at the place with the number, if it isn't there.
    pub fn settle(
        &self,
        number: usize,
        how: How,
        token: Tok,
        upper: usize,
        lower: usize,
        into: &mut Vec<Item>,
    ) -> Result<(), NoMemory>
        requires { WasFound self.now }
        ensures { HasMade (automaton self.now) self.now.found.now number how →
            OnOk result (Looks self.now into.old.items into.new.items
            ((u l : List Sym) → IsList self.now.found.now.lists upper u → IsList self.now.found.now.lists lower l →
            Settles self.now.found.now number (u ++ (l ++ (grammar_symbol.Tok token ∷ []))))) }
    {
        if self.is_settled(number, token, upper, lower) {
            return Ok(());
        }
        into.push(Item::Settling(number, how))?;
        Ok(())
    }
}
