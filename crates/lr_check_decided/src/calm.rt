// Which classes are calm in a state with a token behind it: reductions of the class alone come to an end.
ghost use Rattle.std.specs.Prelude.{◌≡◌, ◌+◌, ◌<◌, ◌≤◌, ◌||◌, IsTrue, IfOk, IfSome, IfNone, Contains, false, length, slice_index_or};
ghost use Rattle.lr_check_sets.specs.Bound.{HasClasses};
ghost use Rattle.lr_check_sets.specs.Table.{productions, automaton_of};
ghost use Rattle.lr_check_decided.specs.Calm.{marked, AreCalm, IsNext, Stuck, LeadsToMarked, AreStuck};
ghost use Rattle.lr_check_decided.specs.Calm.{MakesUnmarked, MakesMarked, OneUnmarked, AllMarked};

use gg_base::NoMemory;
use lr_check_found::{Leads, candidate, free_choices};
use lr_tables::{Choice, State, Tables};
use md_reader::{Rule, Sym};
use std::alloc::Global;
use tree_core::Tok;

fn is_marked(marks: &[bool], class: u16) -> bool
    ensures { result ≡ slice_index_or marks.now class false }
{
    marks.get(class as usize).copied().unwrap_or(false)
}

fn unless_marked(marks: &[bool], class: u16) -> Option<u16>
    ensures some { IfSome result (λ k. (k ≡ class) × (slice_index_or marks.now class false ≡ false)) }
    ensures none { IfNone result (IsTrue (slice_index_or marks.now class false)) }
{
    if is_marked(marks, class) {
        None
    } else {
        Some(class)
    }
}

// The class that isn't marked, if the choice makes one of a whole list of so many symbols.
fn unmarked(rules: &[Rule], choice: Choice, size: usize, marks: &[bool]) -> Option<u16>
    ensures some { IfSome result (λ k. MakesUnmarked rules.now size marks.now k choice) }
    ensures none { IfNone result (MakesMarked rules.now size marks.now choice) }
{
    match candidate(rules, choice, size).leads {
        Leads::Whole(class) => unless_marked(marks, class),
        Leads::Out(_) => None,
        Leads::Inside => None,
    }
}

/// The first class that isn't marked, if one of the choices makes one of a whole list of so many symbols.
pub fn first_unmarked(
    rules: &[Rule],
    choices: &[Choice],
    size: usize,
    marks: &[bool],
) -> Option<u16>
    ensures some { IfSome result (λ k. OneUnmarked rules.now size marks.now choices.now k) }
    ensures none { IfNone result (AllMarked rules.now size marks.now choices.now) }
{
    choices
        .iter()
        .find_map(|choice| unmarked(rules, *choice, size, marks))
}

/// A class that isn't marked to which a reduction of the class alone leads.
pub fn next_unmarked(
    tables: &Tables,
    state: State,
    behind: Tok,
    marks: &[bool],
    class: u16,
) -> Option<u16>
    requires { HasClasses (productions tables.now.content.rules) (length marks.now) }
    ensures some { IfSome result (λ d. IsNext (automaton_of tables.now) state behind marks.now class d) }
    ensures none { IfNone result (LeadsToMarked (automaton_of tables.now) state behind marks.now class) }
{
    let at = match tables.over(state, Sym::Class(class)) {
        Some(at) => at,
        None => return None,
    };
    let rules = tables.description().rules();
    let free = free_choices(rules, tables.action(at, behind));
    first_unmarked(rules, free, 1, marks)
}

fn either(one: bool, other: bool) -> bool
    ensures { result ≡ (one || other) }
{
    one || other
}

// Marks the class if it is calm, as the marked ones show; whether it did.
fn mark_at(tables: &Tables, state: State, behind: Tok, marks: &mut [bool], class: usize) -> bool
    requires classes { HasClasses (productions tables.now.content.rules) (length marks.old) }
    requires few { length marks.old ≤ 64 }
    requires low { class < length marks.old }
    ensures calm { AreCalm (automaton_of tables.now) state behind marks.old → AreCalm (automaton_of tables.now) state behind marks.new }
    ensures stuck { result ≡ false → slice_index_or marks.old class false ≡ false
        → Stuck (automaton_of tables.now) state behind marks.old class }
    ensures same { result ≡ false → marks.new ≡ marks.old }
    ensures more { IsTrue result → marked marks.new ≡ marked marks.old + 1 }
{
    if marks[class] {
        return false;
    }
    if next_unmarked(tables, state, behind, marks, class as u16).is_some() {
        return false;
    }
    marks[class] = true;
    true
}

// Marks what is calm, as the marked ones show; whether there was any.
fn mark_all(tables: &Tables, state: State, behind: Tok, marks: &mut [bool]) -> bool
    requires classes { HasClasses (productions tables.now.content.rules) (length marks.old) }
    requires few { length marks.old ≤ 64 }
    ensures calm { AreCalm (automaton_of tables.now) state behind marks.old → AreCalm (automaton_of tables.now) state behind marks.new }
    ensures stuck { result ≡ false → AreStuck (automaton_of tables.now) state behind marks.new }
    ensures long { length marks.new ≡ length marks.old }
    ensures more { IsTrue result → marked marks.old < marked marks.new }
{
    let mut changed = false;
    for class in 0..marks.len() {
        changed = either(mark_at(tables, state, behind, marks, class), changed);
    }
    changed
}

/// The classes that are calm in the state with the token behind it: a class that isn't marked is stuck.
pub fn calm_classes(
    alloc: Global,
    tables: &Tables,
    state: State,
    behind: Tok,
) -> Result<Vec<bool>, NoMemory>
    requires classes { HasClasses (productions tables.now.content.rules) (length tables.now.content.classes) }
    requires few { length tables.now.content.classes ≤ 64 }
    ensures calm { IfOk result (λ v. AreCalm (automaton_of tables.now) state behind v.items) }
    ensures stuck { IfOk result (λ v. AreStuck (automaton_of tables.now) state behind v.items) }
    ensures long { IfOk result (λ v. length v.items ≡ length tables.now.content.classes) }
{
    let count = tables.description().classes().len();
    let mut marks = vec![in alloc; false; count]?;
    for _round in 0..count + 1 {
        if !mark_all(tables, state, behind, &mut marks) {
            return Ok(marks);
        }
    }
    unreachable!()
}
