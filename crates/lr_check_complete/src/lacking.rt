// All that follows from what was found and isn't there.
ghost use Rattle.std.specs.Prelude.{◌≡◌, ℕ, ◌<◌, OnOk, IfOk, IfSome, Contains, length};
ghost use Rattle.tree_core.specs.declared.token.Tok.{Tok};
ghost use Rattle.tree_core.specs.declared.token.Tok.TheVariants as tok;
ghost use Rattle.tree_core.specs.declared.token.Sort.TheVariants as sort;
ghost use Rattle.lr_check_found.specs.lr_check_sets.specs.Trees.{May};
ghost use Rattle.lr_check_found.specs.lr_check_sets.specs.Table.{automaton_of};
ghost use Rattle.lr_check_found.specs.lr_check_sets.specs.Closed.{IsClosed};
ghost use Rattle.lr_check_found.specs.declared.settlings.Item.{Item};
ghost use Rattle.lr_check_found.specs.Sound.{IsFound};
ghost use Rattle.lr_check_found.specs.Items.{IsItem};
ghost use Rattle.lr_check_complete.specs.Looks.{automaton, WasFound, IsShownRight, Looks};
ghost use Rattle.lr_check_complete.specs.Sets.{HasPlace, HasSettling, HasSum, IsComplete};
ghost use Rattle.lr_check_complete.specs.Kids.{FrameIn, ReducesIn};
ghost use Rattle.lr_check_complete.specs.Sheets.{IsSheet};

use crate::look::Look;
use crate::sheet::{Sheet, sheet_of};
use crate::window::Window;
use gg_base::NoMemory;
use lr_check_found::{Found, Item, Origin, Place, may};
use lr_tables::{State, Tables};
use std::alloc::Global;
use tree_core::{Sort, Tok, tokens};

impl<'a> Look<'a> {
    // The whole tree's place that begins with the token, if it may.
    fn start(&self, token: Tok, into: &mut Vec<Item>) -> Result<(), NoMemory>
        ensures { OnOk result (Looks self.now into.old.items into.new.items
            (May token sort.Stmt → HasPlace self.now.found.now 0 token tok.End)) }
    {
        if !may(token, Sort::Stmt) {
            return Ok(());
        }
        let place = Place {
            state: State::START,
            token,
            behind: Tok::End,
        };
        match self.found.find(&place) {
            Some(_) => Ok(()),
            None => {
                into.push(Item::Place(place, Origin::Root))?;
                Ok(())
            }
        }
    }

    fn starts(&self, into: &mut Vec<Item>) -> Result<(), NoMemory>
        ensures { OnOk result (Looks self.now into.old.items into.new.items
            ((k : Tok) → May k sort.Stmt → HasPlace self.now.found.now 0 k tok.End)) }
    {
        for token in tokens() {
            self.start(*token, into)?;
        }
        Ok(())
    }

    // What follows from the places of the state.
    fn frames_of(&self, alloc: Global, state: State, into: &mut Vec<Item>) -> Result<(), NoMemory>
        requires found { WasFound self.now }
        requires sheet { IsShownRight self.now }
        ensures { OnOk result (Looks self.now into.old.items into.new.items
            ((k : Tok) → FrameIn (automaton self.now) self.now.found.now state k)) }
    {
        for token in tokens() {
            self.frame(alloc, state, *token, into)?;
        }
        Ok(())
    }

    fn frames(&self, alloc: Global, into: &mut Vec<Item>) -> Result<(), NoMemory>
        requires found { WasFound self.now }
        requires sheet { IsShownRight self.now }
        ensures { OnOk result (Looks self.now into.old.items into.new.items
            ((q : ℕ) → q < length self.now.tables.now.rows → (k : Tok) → FrameIn (automaton self.now) self.now.found.now q k)) }
    {
        self.tables.is_numbered();
        for number in 0..self.tables.states() {
            self.frames_of(alloc, State::of(number as u16), into)?;
        }
        Ok(())
    }

    // Reductions of the settling with the number, unless it is old.
    fn new_reductions(&self, number: usize, into: &mut Vec<Item>) -> Result<(), NoMemory>
        requires { WasFound self.now }
        ensures { OnOk result (Looks self.now into.old.items into.new.items
            (ReducesIn (automaton self.now) self.now.found.now number)) }
    {
        if number < self.window.settlings {
            return Ok(());
        }
        self.reductions(number, into)
    }

    fn all_reductions(&self, into: &mut Vec<Item>) -> Result<(), NoMemory>
        requires { WasFound self.now }
        ensures { OnOk result (Looks self.now into.old.items into.new.items
            ((i : ℕ) → i < length self.now.found.now.settlings → ReducesIn (automaton self.now) self.now.found.now i)) }
    {
        for number in 0..self.found.settlings().len() {
            self.new_reductions(number, into)?;
        }
        Ok(())
    }

    fn push_lacking(&self, alloc: Global, into: &mut Vec<Item>) -> Result<(), NoMemory>
        requires found { WasFound self.now }
        requires sheet { IsShownRight self.now }
        ensures { OnOk result (Looks self.now into.old.items into.new.items
            (IsClosed (automaton self.now) (HasPlace self.now.found.now) (HasSettling self.now.found.now) (HasSum self.now.found.now))) }
    {
        self.starts(into)?;
        self.frames(alloc, into)?;
        self.all_reductions(into)
    }
}

// The same, by the sheet that there may be.
fn lacking_by<'x>(
    alloc: Global,
    tables: &'x Tables,
    found: &'x Found,
    window: Window,
    sheet: Option<&'x Sheet>,
) -> Result<Vec<Item>, NoMemory>
    requires found { IsFound (automaton_of tables.now) found.now }
    requires sheet { IfSome sheet (λ s. IsSheet s.now found.now) }
    ensures items { IfOk result (λ v. (i : Item) → Contains v.items i → IsItem (automaton_of tables.now) found.now i) }
    ensures complete { IfOk result (λ v. length v.items ≡ 0 → window.settlings ≡ 0 → IsComplete (automaton_of tables.now) found.now) }
{
    let mut items = Vec::new(alloc);
    let look = Look {
        tables,
        found,
        window,
        sheet,
    };
    look.push_lacking(alloc, &mut items)?;
    Ok(items)
}

/// What follows from what was found and isn't there, as far as it was not looked at before.
pub fn lacking(
    alloc: Global,
    tables: &Tables,
    found: &Found,
    window: Window,
) -> Result<Vec<Item>, NoMemory>
    requires { IsFound (automaton_of tables.now) found.now }
    ensures items { IfOk result (λ v. (i : Item) → Contains v.items i → IsItem (automaton_of tables.now) found.now i) }
    // Where all is looked at and nothing is lacking, all is found.
    ensures complete { IfOk result (λ v. length v.items ≡ 0 → window.settlings ≡ 0 → IsComplete (automaton_of tables.now) found.now) }
{
    match sheet_of(alloc, tables, found)? {
        Some(sheet) => lacking_by(alloc, tables, found, window, Some(&sheet)),
        None => lacking_by(alloc, tables, found, window, None),
    }
}
