// Where a class alone settles.
ghost use Rattle.std.specs.Prelude.{◌≡◌, [], ◌∷◌};
ghost use Rattle.md_reader.specs.declared.types.Sym.TheVariants as grammar_symbol;
ghost use Rattle.lr_check_found.specs.Found.{Settles};
ghost use Rattle.lr_check_decided.specs.Alone.{is_class, is_alone};

use lr_check_found::{Found, Settling};
use md_reader::Sym;

// Whether the list is the class alone.
fn is_class(list: &[Sym], class: u16) -> bool
    ensures { result ≡ is_class list.now class }
{
    match list {
        [Sym::Class(only)] => *only == class,
        _ => false,
    }
}

// Whether the settling is the class alone, at the place with the number.
fn is_alone(found: &Found, place: usize, class: u16, settling: &Settling) -> bool
    ensures { result ≡ is_alone found.now place class settling.now }
{
    settling.place == place && is_class(found.lists().get(settling.list), class)
}

/// The number of the settling that is the class alone at the place with the number.
pub fn alone_at(found: &Found, place: usize, class: u16) -> usize
    requires { Settles found.now place (grammar_symbol.Class class ∷ []) }
    ensures { (h : Settles found.now place (grammar_symbol.Class class ∷ [])) × (h.number ≡ result) }
{
    match found
        .settlings()
        .iter()
        .position(|settling| is_alone(found, place, class, settling))
    {
        Some(number) => number,
        None => unreachable!(),
    }
}
