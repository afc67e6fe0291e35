// What stands next behind the labels of a code.
ghost use Rattle.std.specs.Prelude.{◌≡◌, ◌+◌, ◌∷◌, ℕ, List, IfOk, OnOk, Some};
ghost use Rattle.vax_core.specs.declared.code.CodeItem.{CodeItem};

use gg_base::NoMemory;
use indexmap::IndexMap;
use std::alloc::Global;
use vax_core::CodeItem;
use vax_machine::function::{Action, action_of};

/// For each name of a label the place of the next item behind it: a label that stands twice counts where it stands first.
#[derive(Drop)]
pub struct Nexts<'a> {
    places: IndexMap<&'a [u8], usize>,
    next: usize,
    end: usize,
}

impl<'a> Nexts<'a> {
    ghost use Rattle.vax_machine.specs.Tables.{with_name};
    ghost use Rattle.vax_codes.specs.Nexts.{found, next_behind, HasNexts, AreNexts, goal_of};

    fn add(&mut self, name: &'a [u8]) -> Result<(), NoMemory>
        ensures names { OnOk result (found self.new ≡ with_name (found self.old) name.now self.old.next) }
        ensures next { self.new.next ≡ self.old.next }
        ensures last { self.new.end ≡ self.old.end }
    {
        self.places.insert(name, self.next)?;
        Ok(())
    }

    // One item more in front, at its place.
    fn put(&mut self, item: &'a CodeItem, place: usize) -> Result<(), NoMemory>
        ensures { OnOk result ((items : List CodeItem) → HasNexts self.old items (place + 1) → HasNexts self.new (item.now ∷ items) place) }
    {
        match item {
            CodeItem::Label(name) => {
                self.add(name.as_slice())?;
                Ok(())
            }
            CodeItem::Globl(_) => Ok(()),
            CodeItem::Mask(_) => {
                self.next = place;
                Ok(())
            }
            CodeItem::Instr(_) => {
                self.next = place;
                Ok(())
            }
        }
    }

    /// What stands next behind the labels of these items.
    pub(crate) fn of(alloc: Global, items: &'a [CodeItem]) -> Result<Self, NoMemory>
        ensures { IfOk result (λ n. AreNexts n items.now) }
    {
        let mut nexts = Nexts {
            places: IndexMap::new(alloc),
            next: items.len(),
            end: items.len(),
        };
        for place in (0..items.len()).rev() {
            nexts.put(&items[place], place)?;
        }
        Ok(nexts)
    }

    /// The place of the next item behind a label; behind all items, if there is no such label.
    pub(crate) fn behind(&self, name: &[u8]) -> usize
        ensures { result ≡ next_behind self.now name.now }
    {
        self.places.get(name).copied().unwrap_or(self.end)
    }

    /// The place of the next item behind the label to which an item goes, if it is a branch.
    pub(crate) fn goal(&self, item: &CodeItem) -> Option<usize>
        ensures { (items : List CodeItem) → AreNexts self.now items → result ≡ goal_of items (Some item.now) }
    {
        let CodeItem::Instr(instr) = item else {
            return None;
        };
        if !matches!(action_of(instr.op), Action::Branch(_)) {
            return None;
        }
        let Some(name) = &instr.target else {
            return None;
        };
        Some(self.behind(name.as_slice()))
    }
}
