// Places whose token isn't shifted, and lists at which some answers take nothing.
ghost use Rattle.std.specs.Prelude.{◌≡◌, ℕ, Some, false, IsTrue, IfSome, IfNone};
ghost use Rattle.md_reader.specs.declared.types.Sym.TheVariants as grammar_symbol;
ghost use Rattle.lr_check_sets.specs.Automaton.{CanBlock};
ghost use Rattle.lr_check_sets.specs.Table.{automaton_of};
ghost use Rattle.lr_check_found.specs.declared.places.Place.{Place};
ghost use Rattle.lr_check_found.specs.declared.settlings.Settling.{Settling};
ghost use Rattle.lr_check_found.specs.Found.{IsPlaceAt, IsSettlingAt};
ghost use Rattle.lr_check_found.specs.Sound.{IsFound};
ghost use Rattle.lr_check_flaws.specs.Flaws.{IsGapAt, IsDeadAt};

use lr_check_found::{Found, Settling, can_block};
use lr_tables::Tables;
use md_reader::Sym;

// Whether the token of the place with the number isn't shifted.
fn is_gap(tables: &Tables, found: &Found, number: usize) -> bool
    ensures some { IsTrue result → IsGapAt (automaton_of tables.now) found.now number }
    ensures none { result ≡ false → (x : Place) → IsPlaceAt found.now number x → (p : ℕ)
        × ((automaton_of tables.now).go x.state (grammar_symbol.Tok x.token) ≡ Some p) }
{
    let place = match found.places().get(number) {
        Some(place) => *place,
        None => return false,
    };
    match tables.over(place.state, Sym::Tok(place.token)) {
        Some(_) => false,
        None => true,
    }
}

/// The first place whose token isn't shifted, by number.
pub fn find_gap(tables: &Tables, found: &Found) -> Option<usize>
    ensures some { IfSome result (λ n. IsGapAt (automaton_of tables.now) found.now n) }
    ensures none { IfNone result ((n : ℕ) (x : Place) → IsPlaceAt found.now n x → (p : ℕ)
        × ((automaton_of tables.now).go x.state (grammar_symbol.Tok x.token) ≡ Some p)) }
{
    (0..found.places().len()).find(|number| is_gap(tables, found, *number))
}

// Whether some answers take nothing at the settling's list.
fn is_dead(tables: &Tables, found: &Found, settling: &Settling) -> bool
    ensures some { (i : ℕ) → IsFound (automaton_of tables.now) found.now → IsSettlingAt found.now i settling.now → IsTrue result
        → IsDeadAt (automaton_of tables.now) found.now i }
    ensures none { result ≡ false → (x : Place) (p : ℕ) → IsPlaceAt found.now settling.now.place x → settling.now.behind ≡ Some p →
        CanBlock ((automaton_of tables.now).candidates p x.behind) → ⊥ }
{
    let state = match settling.behind {
        Some(state) => state,
        None => return false,
    };
    let place = match found.places().get(settling.place) {
        Some(place) => *place,
        None => return false,
    };
    let rules = tables.description().rules();
    can_block(rules, tables.action(state, place.behind))
}

fn is_dead_at(tables: &Tables, found: &Found, number: usize) -> bool
    requires { IsFound (automaton_of tables.now) found.now }
    ensures some { IsTrue result → IsDeadAt (automaton_of tables.now) found.now number }
    ensures none { result ≡ false → (e : Settling) (x : Place) (p : ℕ) → IsSettlingAt found.now number e
        → IsPlaceAt found.now e.place x → e.behind ≡ Some p →
        CanBlock ((automaton_of tables.now).candidates p x.behind) → ⊥ }
{
    match found.settlings().get(number) {
        Some(settling) => is_dead(tables, found, settling),
        None => false,
    }
}

/// The first settling behind whose list some answers take nothing, by number.
pub fn find_dead(tables: &Tables, found: &Found) -> Option<usize>
    requires { IsFound (automaton_of tables.now) found.now }
    ensures some { IfSome result (λ i. IsDeadAt (automaton_of tables.now) found.now i) }
    ensures none { IfNone result ((i : ℕ) (e : Settling) (x : Place) (p : ℕ) → IsSettlingAt found.now i e
        → IsPlaceAt found.now e.place x → e.behind ≡ Some p →
        CanBlock ((automaton_of tables.now).candidates p x.behind) → ⊥) }
{
    (0..found.settlings().len()).find(
        |number|
            requires { IsFound (automaton_of tables.now) found.now }
        { is_dead_at(tables, found, *number) },
    )
}
