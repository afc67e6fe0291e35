// The nodes above a place's node, up to the root.
ghost use Rattle.std.specs.Prelude.{◌≡◌, [], ◌∷◌, IfOk, IsTrue, false, length};
ghost use Rattle.tree_core.specs.Grammar.{kids};
ghost use Rattle.lr_check.specs.Statement.{KidsFit};
ghost use Rattle.lr_check_found.specs.declared.places.Place.{Place};
ghost use Rattle.lr_check_found.specs.declared.places.Origin.{Origin};
ghost use Rattle.lr_check_found.specs.Found.{IsPlaceAt};
ghost use Rattle.lr_check_samples.specs.Fixed.{IsOrigin};
ghost use Rattle.lr_check_nodes.specs.Growing.{HasLast};
ghost use Rattle.lr_check_drawn.specs.Rising.{AreBegun, HaveNodes, StandsAt, FitsFirst, HasFirst, AfterParent, HasRisen};

use gg_base::{NoMemory, number_of};
use lr_check_found::{Found, Origin};
use lr_check_nodes::Growing;
use std::alloc::Global;
use tree_core::Tok;

/// The token of the place with the number.
pub(crate) fn token_of(found: &Found, place: usize) -> Tok
    ensures { (x : Place) → IsPlaceAt found.now place x → result ≡ x.token }
{
    match found.places().get(place) {
        Some(place) => place.token,
        None => Tok::Jump,
    }
}

// The token behind it.
fn behind_of(found: &Found, place: usize) -> Tok
    ensures { (x : Place) → IsPlaceAt found.now place x → result ≡ x.behind }
{
    match found.places().get(place) {
        Some(place) => place.behind,
        None => Tok::End,
    }
}

fn origin_of(found: &Found, place: usize) -> Origin
    ensures { (o : Origin) → IsOrigin found.now place o → result ≡ o }
{
    found.origins().get(place).copied().unwrap_or(Origin::Root)
}

fn has_two(token: Tok) -> bool
    ensures two { IsTrue result → length (kids token) ≡ 2 }
    ensures one { result ≡ false → length (kids token) ≡ 2 → ⊥ }
{
    token.kids().len() == 2
}

// A place by its number, and its node's number.
#[derive(Clone, Copy)]
struct Standing {
    place: usize,
    node: u32,
}

fn add_over(growing: &mut Growing, alloc: Global, token: Tok, kid: u32) -> Result<u32, NoMemory>
    requires { KidsFit growing.old (kid ∷ []) (kids token) }
    ensures { IfOk result (λ n. HasLast growing.old growing.new token (kid ∷ []) [] n) }
{
    growing.add(alloc, token, &[kid], &[])
}

fn add_over_both(
    growing: &mut Growing,
    alloc: Global,
    token: Tok,
    first: u32,
    second: u32,
) -> Result<u32, NoMemory>
    requires { KidsFit growing.old (first ∷ second ∷ []) (kids token) }
    ensures { IfOk result (λ n. HasLast growing.old growing.new token (first ∷ second ∷ []) [] n) }
{
    growing.add(alloc, token, &[first, second], &[])
}

// Adds the parent of a first kid: a second one begins with the token behind it.
fn add_over_first(
    growing: &mut Growing,
    alloc: Global,
    token: Tok,
    behind: Tok,
    kid: u32,
) -> Result<u32, NoMemory>
    requires { FitsFirst growing.old token behind kid }
    ensures { IfOk result (λ n. HasFirst growing.old growing.new token behind kid n) }
{
    if has_two(token) {
        let second = growing.add_from(alloc, behind)?;
        add_over_both(growing, alloc, token, kid, second)
    } else {
        add_over(growing, alloc, token, kid)
    }
}

// Adds the parent, if the place isn't the root's.
fn add_parent(
    growing: &mut Growing,
    alloc: Global,
    found: &Found,
    kid: Standing,
) -> Result<Option<Standing>, NoMemory>
    requires begun { AreBegun found.now }
    requires settled { HaveNodes found.now growing.old }
    requires stands { StandsAt found.now growing.old kid.place kid.node }
    ensures { IfOk result (λ o. AfterParent found.now growing.old growing.new kid.place kid.node o) }
{
    match origin_of(found, kid.place) {
        Origin::Root => Ok(None),
        Origin::First(place) => {
            let token = token_of(found, place);
            let behind = behind_of(found, kid.place);
            let node = add_over_first(growing, alloc, token, behind, kid.node)?;
            Ok(Some(Standing { place, node }))
        }
        Origin::Second(place, settling) => {
            let token = token_of(found, place);
            let first = number_of(settling)?;
            let node = add_over_both(growing, alloc, token, first, kid.node)?;
            Ok(Some(Standing { place, node }))
        }
    }
}

/// Adds what stands above the place's node, which is the last: the last is the root then.
pub(crate) fn rise(
    growing: &mut Growing,
    alloc: Global,
    found: &Found,
    place: usize,
    top: u32,
) -> Result<(), NoMemory>
    requires begun { AreBegun found.now }
    requires settled { HaveNodes found.now growing.old }
    requires stands { StandsAt found.now growing.old place top }
    ensures { IfOk result (λ _. HasRisen found.now growing.old growing.new place top) }
{
    growing.is_whole();
    let mut standing = Standing { place, node: top };
    'above: loop {
        let next = add_parent(growing, alloc, found, standing)?;
        match next {
            Some(parent) => standing = parent,
            None => return Ok(()),
        }
    }
}
