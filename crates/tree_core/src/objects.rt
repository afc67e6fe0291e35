// Whether the objects lie in the data area as they are laid out, and their links in them.

ghost use Rattle.std.specs.Prelude.{◌≡◌, ◌↔◌, ◌<◌, ◌≤◌, ◌^◌, ◌+◌, IsTrue, IfSome, None, false, not, is_some, length};
ghost use Rattle.std.specs.Bool.{OnTrue};
ghost use Rattle.std.specs.List.{All, AllPass};
ghost use Rattle.gg_base.specs.declared.limits.TheConstants.{AREA_START};
ghost use Rattle.tree_core.specs.Valid.{object_lies, objects_lie, link_lies, four, bytes_linked, BytesApart, LinksApart, LinksLie};
ghost use Rattle.tree_core.specs.Window.{has, added, met_once, MetOnce, least};

use crate::program::{Link, Object};
use crate::window::{WINDOW, Window, better};
use gg_base::limits::{AREA_LIMIT, AREA_START};

/// Whether the objects lie one behind another, each at the next address of its alignment.
pub(crate) fn objects_lie(objects: &[Object]) -> bool
    ensures { result ≡ objects_lie AREA_START objects.now }
{
    let mut at = u64::from(AREA_START);
    for object in objects {
        if !object_lies(at, object) {
            return false;
        }
        at = u64::from(object.address) + u64::from(object.size);
    }
    true
}

fn object_lies(at: u64, object: &Object) -> bool
    requires { at < 2 ^ 33 }
    ensures { result ≡ object_lies at object.now }
{
    let align = u64::from(object.align);
    let address = u64::from(object.address);
    if align != 1 && align != 2 && align != 4 {
        return false;
    }
    object.bytes.as_slice().len() == object.size as usize
        && address == (at + (align - 1)) / align * align
        && address + u64::from(object.size) <= u64::from(AREA_START) + u64::from(AREA_LIMIT)
}

/// Whether each link lies in its object and names one, and no two of an object share a byte.
pub(crate) fn links_lie(objects: &[Object]) -> bool
    ensures { IsTrue result ↔ All (LinksLie (length objects.now)) objects.now }
{
    objects
        .iter()
        .all(|object| links_lie_in(objects.len(), object))
}

fn links_lie_in(objects: usize, object: &Object) -> bool
    ensures { IsTrue result ↔ LinksLie objects object.now }
{
    let links = object.links.as_slice();
    each_link_lies(objects, object.size, links) && links_apart(links)
}

fn each_link_lies(objects: usize, size: u32, links: &[Link]) -> bool
    ensures { IsTrue result ↔ AllPass (link_lies objects size) links.now }
{
    links.iter().all(|link| link_lies(objects, size, *link))
}

fn link_lies(objects: usize, size: u32, link: Link) -> bool
    ensures { result ≡ link_lies objects size link }
{
    u64::from(link.at) + 4 <= u64::from(size) && (link.object as usize) < objects
}

// Whether two links begin at least four bytes apart.
fn links_apart(links: &[Link]) -> bool
    ensures { IsTrue result ↔ LinksApart links.now }
{
    bytes_apart(links)
}

// Whether no byte belongs to two links.
fn bytes_apart(links: &[Link]) -> bool
    ensures { IsTrue result ↔ BytesApart links.now }
{
    let mut from = 0;
    while let Some(base) = least_byte(links, from) {
        if !met_once(links, base) {
            return false;
        }
        from = base + WINDOW;
    }
    true
}

// The least byte of a link from a number on.
fn least_byte(links: &[Link], from: u64) -> Option<u64>
    ensures least { result ≡ least from None (bytes_linked links.now) }
    ensures small { IfSome result (λ n. n < 2 ^ 33) }
{
    let mut best = None;
    for link in links {
        best = least_of_four(u64::from(link.at), from, best);
    }
    best
}

fn least_of_four(at: u64, from: u64, best: Option<u64>) -> Option<u64>
    requires at { at < 2 ^ 32 }
    requires best { IfSome best (λ n. n < 2 ^ 33) }
    ensures least { result ≡ least from best (four at) }
    ensures small { IfSome result (λ n. n < 2 ^ 33) }
{
    let best = better(from, best, at);
    let best = better(from, best, at + 1);
    let best = better(from, best, at + 2);
    better(from, best, at + 3)
}

// Whether each byte of the window that begins there belongs to one link at most.
fn met_once(links: &[Link], base: u64) -> bool
    ensures { result ≡ is_some (met_once base (λ m. false) (bytes_linked links.now)) }
{
    let mut window = Window::at(base);
    for link in links {
        if !meet_four(&mut window, u64::from(link.at)) {
            return false;
        }
    }
    true
}

fn meet_four(window: &mut Window, at: u64) -> bool
    requires { at < 2 ^ 32 }
    ensures base { window.new.base ≡ window.old.base }
    ensures met { MetOnce result (has window.new) (met_once window.old.base (has window.old) (four at)) }
{
    if !meet_new(window, at) {
        return false;
    }
    if !meet_new(window, at + 1) {
        return false;
    }
    if !meet_new(window, at + 2) {
        return false;
    }
    meet_new(window, at + 3)
}

// Meets the number, if it was not met before.
fn meet_new(window: &mut Window, number: u64) -> bool
    ensures base { window.new.base ≡ window.old.base }
    ensures new { result ≡ not (has window.old number) }
    ensures met { OnTrue result (has window.new ≡ added window.old.base (has window.old) number) }
{
    if window.has(number) {
        return false;
    }
    window.meet(number);
    true
}
