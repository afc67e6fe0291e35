// What a node is asked while reductions of a class alone turn round.
ghost use Rattle.std.specs.Prelude.{◌≡◌, ◌++◌, ◌<◌, ◌-◌, ℕ, Some, OnOk, IfOk, length, slice_index_or};
ghost use Rattle.md_reader.specs.declared.types.Sym.TheVariants as grammar_symbol;
ghost use Rattle.lr_check_found.specs.lr_check_sets.specs.Table.{automaton_of};
ghost use Rattle.lr_check_samples.specs.Answering.{answers_to, depths_to};
ghost use Rattle.lr_check_flaws.specs.Flaws.{Along};
ghost use Rattle.lr_check_drawn.specs.Turning.{HasTurned, LeadsOn, IsRound};

use crate::asked::Asked;
use gg_base::NoMemory;
use lr_check_found::Place;
use lr_tables::Tables;
use md_reader::Sym;
use std::alloc::Global;

// Until the one class is reduced to the other.
fn turn(
    asked: &mut Asked,
    tables: &Tables,
    place: &Place,
    from: u16,
    to: u16,
) -> Result<(), NoMemory>
    ensures { (p : ℕ) → (automaton_of tables.now).go place.now.state (grammar_symbol.Class from) ≡ Some p
        → OnOk result (asked.new ≡ record {
          own = asked.old.own ++ answers_to ((automaton_of tables.now).candidates p place.now.behind) 1 to;
          depths = asked.old.depths ++ depths_to ((automaton_of tables.now).candidates p place.now.behind) 1 to;
        }) }
{
    match tables.over(place.state, Sym::Class(from)) {
        Some(state) => {
            let rules = tables.description().rules();
            asked.push_taken(rules, tables.action(state, place.behind), 1, to)
        }
        None => Ok(()),
    }
}

// From a class along these classes.
fn turns(
    alloc: Global,
    tables: &Tables,
    place: &Place,
    first: u16,
    classes: &[u16],
) -> Result<Asked, NoMemory>
    requires { LeadsOn (automaton_of tables.now) place.now first classes.now }
    ensures { IfOk result (λ a. (d : ℕ) → Along (automaton_of tables.now) place.now.state place.now.behind first classes.now d →
        HasTurned (automaton_of tables.now) place.now first d a) }
{
    let mut asked = Asked::new(alloc);
    let mut from = first;
    for class in classes {
        turn(&mut asked, tables, place, from, *class)?;
        from = *class;
    }
    Ok(asked)
}

fn last_of(classes: &[u16]) -> u16
    requires some { 0 < length classes.now }
    ensures { result ≡ slice_index_or classes.now (length classes.now - 1) 0 }
{
    classes[classes.len() - 1]
}

/// What the node is asked at the place while these classes lead round, from the last to the last.
pub(crate) fn round(
    alloc: Global,
    tables: &Tables,
    place: &Place,
    classes: &[u16],
) -> Result<Asked, NoMemory>
    requires { IsRound (automaton_of tables.now) place.now classes.now }
    ensures { IfOk result (λ a. (c : ℕ) → Along (automaton_of tables.now) place.now.state place.now.behind c classes.now c →
        HasTurned (automaton_of tables.now) place.now c c a) }
{
    turns(alloc, tables, place, last_of(classes), classes)
}
