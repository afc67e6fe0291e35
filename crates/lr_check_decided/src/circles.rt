// Reductions of whole lists that lead back to a list.
ghost use Rattle.std.specs.Prelude.{◌≡◌, ℕ, ◌≤◌, OnOk, IfOk, IfSome, IfNone, List, length};
ghost use Rattle.md_reader.specs.declared.types.Sym.{Sym};
ghost use Rattle.lr_check_sets.specs.Bound.{HasClasses};
ghost use Rattle.lr_check_sets.specs.Faults.{Calms};
ghost use Rattle.lr_check_sets.specs.Table.{productions, automaton_of};
ghost use Rattle.lr_check_found.specs.declared.places.Place.{Place};
ghost use Rattle.lr_check_found.specs.declared.settlings.Settling.{Settling};
ghost use Rattle.lr_check_found.specs.Lists.{IsList};
ghost use Rattle.lr_check_found.specs.Found.{IsPlaceAt, IsSettlingAt};
ghost use Rattle.lr_check_flaws.specs.Flaws.{IsFlaw};
ghost use Rattle.lr_check_complete.specs.Sets.{IsComplete};
ghost use Rattle.lr_check_decided.specs.Held.{AreRight};
ghost use Rattle.lr_check_decided.specs.Turn.{IsRestless};

use crate::alone::alone_at;
use crate::calm::{calm_classes, first_unmarked};
use crate::held::CalmHeld;
use crate::turning::turn_from;
use gg_base::NoMemory;
use lr_check_flaws::Flaw;
use lr_check_found::{Found, Place, Settling, free_choices};
use lr_tables::Tables;
use std::alloc::Global;

// A class from which reductions don't end, with marks of the classes from which they do.
#[derive(Drop)]
pub(crate) struct Restless {
    pub class: u16,
    pub marks: Vec<bool>,
}

// A class that reductions of the settling's whole list make and from which they don't end.
fn restless_of(
    alloc: Global,
    tables: &Tables,
    found: &Found,
    settling: &Settling,
    place: &Place,
    held: &mut CalmHeld,
) -> Result<Option<Restless>, NoMemory>
    requires right { AreRight (automaton_of tables.now) held.old }
    requires complete { IsComplete (automaton_of tables.now) found.now }
    requires at { (i : ℕ) × IsSettlingAt found.now i settling.now }
    requires place { IsPlaceAt found.now settling.now.place place.now }
    requires classes { HasClasses (productions tables.now.content.rules) (length tables.now.content.classes) }
    requires few { length tables.now.content.classes ≤ 64 }
    ensures some { IfOk result (λ o. IfSome o (λ r. IsRestless (automaton_of tables.now) found.now settling.now.place place.now r
        × (length r.marks.items ≡ length tables.now.content.classes))) }
    ensures none { IfOk result (λ o. IfNone o ((s : List Sym) → IsList found.now.lists settling.now.list s
        → Calms (automaton_of tables.now) place.now.state place.now.behind s)) }
    ensures right { OnOk result (AreRight (automaton_of tables.now) held.new) }
{
    let state = match settling.behind {
        Some(state) => state,
        None => return Ok(None),
    };
    let rules = tables.description().rules();
    let free = free_choices(rules, tables.action(state, place.behind));
    let size = found.lists().get(settling.list).len();
    if first_unmarked(rules, free, size, &[]).is_none() {
        return Ok(None);
    }
    if held.are_calm(rules, free, size, place.state, place.behind) {
        return Ok(None);
    }
    let marks = calm_classes(alloc, tables, place.state, place.behind)?;
    match first_unmarked(rules, free, size, &marks) {
        Some(class) => Ok(Some(Restless { class, marks })),
        None => {
            held.hold(place.state, place.behind, marks)?;
            Ok(None)
        }
    }
}

// The circle to which reductions of the class lead, which settles at the place with the number.
fn circle_of(
    alloc: Global,
    tables: &Tables,
    found: &Found,
    number: usize,
    place: &Place,
    restless: &Restless,
) -> Result<Flaw, NoMemory>
    requires complete { IsComplete (automaton_of tables.now) found.now }
    requires place { IsPlaceAt found.now number place.now }
    requires restless { IsRestless (automaton_of tables.now) found.now number place.now restless.now }
    requires classes { HasClasses (productions tables.now.content.rules) (length restless.now.marks.items) }
    requires few { length restless.now.marks.items ≤ 64 }
    ensures { IfOk result (λ w. IsFlaw (automaton_of tables.now) found.now w) }
{
    let turn = turn_from(
        alloc,
        tables,
        place.state,
        place.behind,
        &restless.marks,
        restless.class,
    )?;
    let settling = alone_at(found, number, turn.class);
    Ok(Flaw::Circle(settling, turn.along))
}

// The circle to which reductions of the whole list of the settling with the number lead.
fn circle_at(
    alloc: Global,
    tables: &Tables,
    found: &Found,
    number: usize,
    held: &mut CalmHeld,
) -> Result<Option<Flaw>, NoMemory>
    requires right { AreRight (automaton_of tables.now) held.old }
    requires complete { IsComplete (automaton_of tables.now) found.now }
    requires classes { HasClasses (productions tables.now.content.rules) (length tables.now.content.classes) }
    requires few { length tables.now.content.classes ≤ 64 }
    ensures some { IfOk result (λ o. IfSome o (λ w. IsFlaw (automaton_of tables.now) found.now w)) }
    ensures none { IfOk result (λ o. IfNone o ((e : Settling) (x : Place) (s : List Sym) → IsSettlingAt found.now number e
        → IsPlaceAt found.now e.place x → IsList found.now.lists e.list s → Calms (automaton_of tables.now) x.state x.behind s)) }
    ensures right { OnOk result (AreRight (automaton_of tables.now) held.new) }
{
    let settling = match found.settlings().get(number) {
        Some(settling) => settling,
        None => return Ok(None),
    };
    let place = match found.places().get(settling.place) {
        Some(place) => place,
        None => return Ok(None),
    };
    match restless_of(alloc, tables, found, settling, place, held)? {
        Some(restless) => {
            let flaw = circle_of(alloc, tables, found, settling.place, place, &restless)?;
            Ok(Some(flaw))
        }
        None => Ok(None),
    }
}

/// A circle to which reductions of some settling's whole list lead: none, and they all come to an end.
pub fn find_circle(alloc: Global, tables: &Tables, found: &Found) -> Result<Option<Flaw>, NoMemory>
    requires complete { IsComplete (automaton_of tables.now) found.now }
    requires classes { HasClasses (productions tables.now.content.rules) (length tables.now.content.classes) }
    requires few { length tables.now.content.classes ≤ 64 }
    ensures some { IfOk result (λ o. IfSome o (λ w. IsFlaw (automaton_of tables.now) found.now w)) }
    ensures none { IfOk result (λ o. IfNone o ((i : ℕ) (e : Settling) (x : Place) (s : List Sym) → IsSettlingAt found.now i e
        → IsPlaceAt found.now e.place x → IsList found.now.lists e.list s → Calms (automaton_of tables.now) x.state x.behind s)) }
{
    let mut held = CalmHeld::new(alloc);
    for number in 0..found.settlings().len() {
        if let Some(flaw) = circle_at(alloc, tables, found, number, &mut held)? {
            return Ok(Some(flaw));
        }
    }
    Ok(None)
}
