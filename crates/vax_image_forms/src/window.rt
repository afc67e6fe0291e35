// Windows of a text section, in which branches grow until all reach that go inside.
ghost use Rattle.std.specs.Prelude.{◌≡◌, ◌+◌, ◌<◌, ◌≤◌, ◌^◌, ◌-◌, length, IfOk};
ghost use Rattle.vax_image_branches.specs.Least.{ArePieces, IsBelow};
ghost use Rattle.vax_image_branches.specs.Rounds.{AreSmall};
ghost use Rattle.vax_image_forms.specs.Windows.{ArePlacesIn, reaches_in, TurnedIn, RoundedIn, HasSettled};

use gg_base::Size;
use std::alloc::{AllocError, Global};
use vax_image_branches::piece::{longer_form, spans};
use vax_image_branches::{Branch, Piece};

/// Some pieces of a text section, one behind the other: the number of the first, and how many.
#[derive(Clone, Copy)]
pub struct Window {
    pub first: usize,
    pub count: usize,
}

// The places of a window's pieces and of its end, counted from its first piece.
fn places_in(
    alloc: Global,
    pieces: &[Piece],
    forms: &[Size],
    window: Window,
) -> Result<Vec<u64>, AllocError>
    requires pieces { ArePieces pieces.now }
    requires forms { length forms.now ≡ length pieces.now }
    requires inside { window.first + window.count ≤ length pieces.now }
    ensures places { IfOk result (λ at. ArePlacesIn pieces.now forms.now window.first window.count at.items) }
    ensures small { IfOk result (λ at. AreSmall at.items) }
{
    let mut places = vec![in alloc; 0; 1]?;
    let mut end: u64 = 0;
    for j in 0..window.count {
        let k = window.first + j;
        end += u64::from(pieces[k].length(forms[k]));
        places.push(end)?;
    }
    Ok(places)
}

// Whether a branch reaches its target, a piece of the window or its end, from the end of its field.
fn reaches_in(places: &[u64], first: usize, j: usize, branch: Branch, form: Size) -> bool
    requires number { j + 1 < length places.now }
    requires target { (first ≤ branch.target) × (branch.target < first + length places.now) }
    requires small { AreSmall places.now }
    ensures { result ≡ reaches_in places.now first j branch form }
{
    spans(form, places[j + 1], places[branch.target - first])
}

// The window's piece of this number gets a longer form if it is a branch that goes inside and does not reach.
fn turn(pieces: &[Piece], places: &[u64], forms: &mut [Size], window: Window, j: usize) -> bool
    requires inside { window.first + window.count ≤ length pieces.now }
    requires places { (length places.now ≡ window.count + 1) × AreSmall places.now }
    requires forms { length forms.old ≡ length pieces.now }
    requires number { j < window.count }
    requires few { length pieces.now ≤ 2 ^ 33 }
    ensures { TurnedIn pieces.now places.now forms.old window.first window.count j result forms.new }
{
    let k = window.first + j;
    let form = forms[k];
    match pieces[k] {
        Piece::Fixed(_) => false,
        Piece::Branch(branch) => {
            if branch.target < window.first || branch.target > window.first + window.count {
                return false;
            }
            if reaches_in(places, window.first, j, branch, form) {
                return false;
            }
            forms[k] = longer_form(form);
            true
        }
    }
}

// One round over the branches of a window.
fn round(pieces: &[Piece], places: &[u64], forms: &mut [Size], window: Window) -> bool
    requires pieces { ArePieces pieces.now }
    requires inside { window.first + window.count ≤ length pieces.now }
    requires places { ArePlacesIn pieces.now forms.old window.first window.count places.now }
    requires small { AreSmall places.now }
    requires below { IsBelow pieces.now forms.old }
    ensures { RoundedIn pieces.now forms.old window.first window.count result forms.new }
{
    let mut grew = false;
    for j in 0..window.count {
        if turn(pieces, places, forms, window, j) {
            grew = true;
        }
    }
    grew
}

/// Rounds over a window, until none of its branches grows that go inside. The answer is whether some grew.
pub fn settle(
    alloc: Global,
    pieces: &[Piece],
    forms: &mut [Size],
    window: Window,
) -> Result<bool, AllocError>
    requires pieces { ArePieces pieces.now }
    requires inside { window.first + window.count ≤ length pieces.now }
    requires below { IsBelow pieces.now forms.old }
    ensures { IfOk result (λ grew. HasSettled pieces.now forms.old window.first window.count grew forms.new) }
{
    let mut grew = false;
    let mut grows = true;
    while grows {
        let places = places_in(alloc, pieces, forms, window)?;
        grows = round(pieces, &places, forms, window);
        grew = grew || grows;
    }
    Ok(grew)
}
