//! When the entries of a selection's stack stand for what its symbols stand for, and what spills and reloads leave of that. The function
//! does nothing; its clauses are laws.
#![tactic(auto)]

ghost use Rattle.sel_parse_stands.specs.Claims.{EntriesAreSaved, RegistersAreReloaded};

use sel_target::Target;

/// An entry that holds a register stands in its slot for what it stood for, and so does a register that is brought back; all else is kept.
pub fn entries_are_saved<T: Target>(_target: &T)
    ensures saved { EntriesAreSaved T.meaning }
    ensures reloaded { RegistersAreReloaded T.meaning }
{}
