// The samples of flaws.
ghost use Rattle.std.specs.Prelude.{◌≡◌, ◌++◌, [], ◌∷◌, ℕ, IfOk, slice_get};
ghost use Rattle.md_reader.specs.declared.types.Sym.TheVariants as grammar_symbol;
ghost use Rattle.lr_check_found.specs.lr_check_sets.specs.Table.{automaton_of};
ghost use Rattle.lr_check_found.specs.declared.places.Place.{Place};
ghost use Rattle.lr_check_found.specs.declared.settlings.Settling.{Settling};
ghost use Rattle.lr_check_found.specs.Found.{IsSettlingAt, SettlesAt};
ghost use Rattle.lr_check_found.specs.Sound.{IsFound};
ghost use Rattle.lr_check_flaws.specs.Flaws.{IsGapAt, IsDeadAt, IsCircleAt, IsFlaw};
ghost use Rattle.lr_check.specs.Questions.{answers_of};
ghost use Rattle.lr_check_drawn.specs.Drawing.{kids_in};
ghost use Rattle.lr_check_drawn.specs.Rising.{AreBegun, HaveNodes};
ghost use Rattle.lr_check_drawn.specs.Sampled.{AreSettled, HasPlaceOf, HasAbove, HasRound, IsBlockingSample, IsLoopingSample, IsSampleOf};

use crate::drawing::Drawing;
use crate::rising::{rise, token_of};
use crate::turning::round;
use gg_base::NoMemory;
use lr_check::SampleNode;
use lr_check_flaws::Flaw;
use lr_check_found::Found;
use lr_check_nodes::{Growing, prune};
use lr_tables::Tables;
use std::alloc::Global;

// The nodes of all settlings.
fn settled(alloc: Global, tables: &Tables, found: &Found) -> Result<Growing, NoMemory>
    requires { IsFound (automaton_of tables.now) found.now }
    ensures { IfOk result (λ g. AreSettled (automaton_of tables.now) found.now g) }
{
    let drawing = Drawing::of_all(alloc, tables, found)?;
    Ok(drawing.into_growing())
}

// The numbers of the node's kids.
fn kids_of(growing: &Growing, alloc: Global, number: usize) -> Result<Vec<u32>, NoMemory>
    ensures { IfOk result (λ v. v.items ≡ kids_in (slice_get growing.now number)) }
{
    let mut kids = Vec::new(alloc);
    if let Some(node) = growing.nodes().get(number) {
        kids.extend_from_slice(node.kids())?;
    }
    Ok(kids)
}

// What the node is answered.
fn answers_of(growing: &Growing, alloc: Global, number: usize) -> Result<Vec<bool>, NoMemory>
    ensures { IfOk result (λ v. v.items ≡ answers_of (slice_get growing.now number)) }
{
    let mut answers = Vec::new(alloc);
    if let Some(node) = growing.nodes().get(number) {
        answers.extend_from_slice(node.answers())?;
    }
    Ok(answers)
}

fn joined(alloc: Global, first: &[bool], second: &[bool]) -> Result<Vec<bool>, NoMemory>
    ensures { IfOk result (λ v. v.items ≡ first.now ++ second.now) }
{
    let mut both = Vec::new(alloc);
    both.extend_from_slice(first)?;
    both.extend_from_slice(second)?;
    Ok(both)
}

// The number of the settling's place.
fn place_of(found: &Found, settling: usize) -> usize
    ensures { (e : Settling) → IsSettlingAt found.now settling e → result ≡ e.place }
{
    match found.settlings().get(settling) {
        Some(entry) => entry.place,
        None => 0,
    }
}

// Adds a node of the settling's kids with these answers, and all that stands above it.
fn add_above(
    growing: &mut Growing,
    alloc: Global,
    found: &Found,
    settling: usize,
    answers: &[bool],
) -> Result<(), NoMemory>
    requires begun { AreBegun found.now }
    requires settled { HaveNodes found.now growing.old }
    requires there { HasPlaceOf found.now settling }
    ensures { IfOk result (λ _. HasAbove found.now growing.old growing.new settling answers.now) }
{
    growing.is_whole();
    let place = place_of(found, settling);
    let kids = kids_of(growing, alloc, settling)?;
    let top = growing.add(alloc, token_of(found, place), &kids, answers)?;
    rise(growing, alloc, found, place, top)
}

// What the settling's node is asked while these classes lead round.
fn answers_round(
    alloc: Global,
    tables: &Tables,
    found: &Found,
    settling: usize,
    classes: &[u16],
) -> Result<Vec<bool>, NoMemory>
    requires { IsCircleAt (automaton_of tables.now) found.now settling classes.now }
    ensures { IfOk result (λ v. HasRound (automaton_of tables.now) found.now settling classes.now v.items) }
{
    match found.places().get(place_of(found, settling)) {
        Some(place) => {
            let asked = round(alloc, tables, place, classes)?;
            Ok(asked.into_own())
        }
        None => Ok(Vec::new(alloc)),
    }
}

// A smallest statement whose parse comes to the place, where its token isn't shifted.
fn draw_gap(
    alloc: Global,
    tables: &Tables,
    found: &Found,
    place: usize,
) -> Result<Vec<SampleNode>, NoMemory>
    requires found { IsFound (automaton_of tables.now) found.now }
    requires gap { IsGapAt (automaton_of tables.now) found.now place }
    ensures { IfOk result (λ v. IsBlockingSample tables.now.content v.items) }
{
    tables.is_numbered();
    tables.description().is_valid();
    let mut growing = settled(alloc, tables, found)?;
    let top = growing.add_from(alloc, token_of(found, place))?;
    rise(&mut growing, alloc, found, place, top)?;
    prune(alloc, growing.nodes())
}

// One whose parse comes to the settling's list, behind which its answers take nothing.
fn draw_dead(
    alloc: Global,
    tables: &Tables,
    found: &Found,
    settling: usize,
) -> Result<Vec<SampleNode>, NoMemory>
    requires found { IsFound (automaton_of tables.now) found.now }
    requires dead { IsDeadAt (automaton_of tables.now) found.now settling }
    ensures { IfOk result (λ v. IsBlockingSample tables.now.content v.items) }
{
    tables.is_numbered();
    tables.description().is_valid();
    let mut growing = settled(alloc, tables, found)?;
    let answers = answers_of(&growing, alloc, settling)?;
    add_above(&mut growing, alloc, found, settling, &answers)?;
    prune(alloc, growing.nodes())
}

// One whose parse comes to the settling's list, from which its answers lead round.
fn draw_circle(
    alloc: Global,
    tables: &Tables,
    found: &Found,
    settling: usize,
    classes: &[u16],
) -> Result<Vec<SampleNode>, NoMemory>
    requires found { IsFound (automaton_of tables.now) found.now }
    requires circle { IsCircleAt (automaton_of tables.now) found.now settling classes.now }
    ensures { IfOk result (λ v. IsLoopingSample tables.now.content v.items) }
{
    tables.is_numbered();
    tables.description().is_valid();
    let mut growing = settled(alloc, tables, found)?;
    let own = answers_of(&growing, alloc, settling)?;
    let more = answers_round(alloc, tables, found, settling, classes)?;
    let answers = joined(alloc, &own, &more)?;
    add_above(&mut growing, alloc, found, settling, &answers)?;
    prune(alloc, growing.nodes())
}

/// The nodes of a smallest statement that shows the flaw, with their answers: its parse blocks at a gap
/// or a dead list, and turns at a circle. The last node is the root, and it reaches all.
pub fn draw(
    alloc: Global,
    tables: &Tables,
    found: &Found,
    flaw: &Flaw,
) -> Result<Vec<SampleNode>, NoMemory>
    requires found { IsFound (automaton_of tables.now) found.now }
    requires flaw { IsFlaw (automaton_of tables.now) found.now flaw.now }
    ensures { IfOk result (λ v. IsSampleOf tables.now.content flaw.now v.items) }
{
    match flaw {
        Flaw::Gap(place) => draw_gap(alloc, tables, found, *place),
        Flaw::Dead(settling) => draw_dead(alloc, tables, found, *settling),
        Flaw::Circle(settling, classes) => {
            draw_circle(alloc, tables, found, *settling, classes.as_slice())
        }
    }
}
