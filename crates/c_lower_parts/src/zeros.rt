// Whether the zero of a declaration is written: it isn't where the local is assigned to before anything names it.
ghost use Rattle.std.specs.Prelude.{◌≡◌, map};
ghost use Rattle.c_types.specs.Typed.{expression_of, place_of};
ghost use Rattle.c_program.specs.Statements.{acts, declaration, optional_expression};
ghost use Rattle.c_lower_scheme.specs.Zeros.{is_at, sets, maybe_sets, is_overwritten, is_zeroed};

use crate::mention::{is_local, mentions};
use c_program::{Action, Declaration};
use c_types::{Expression, Place};

// Whether a place is the local itself.
fn is_at(local: u32, place: &Place) -> bool
    ensures { result ≡ is_at local (place_of place.now) }
{
    match place {
        Place::Variable(_, v) => is_local(local, *v),
        Place::Indirection(_, _) => false,
        Place::Index(_, _) => false,
    }
}

// Whether an expression assigns to the local a value that does not name it.
fn sets(local: u32, e: &Expression) -> bool
    ensures { result ≡ sets local (expression_of e.now) }
{
    match e {
        Expression::Assign(p, e) => is_at(local, p) && !mentions(local, e),
        _ => false,
    }
}

fn maybe_sets(local: u32, e: &Option<Expression>) -> bool
    ensures { result ≡ maybe_sets local (optional_expression e.now) }
{
    match e {
        None => false,
        Some(e) => sets(local, e),
    }
}

// Whether the local is assigned to, and not named before, among so many declarations and statements, which run straight on.
fn is_overwritten(ahead: u32, local: u32, ds: &[Declaration], rest: &[Action]) -> bool
    ensures { result ≡ is_overwritten ahead local (map declaration ds.now) (acts rest.now) }
{
    if ahead == 0 {
        return false;
    }
    let next = ahead - 1;
    match ds.split_first() {
        Some((Declaration::Keep(_), ds)) => is_overwritten(next, local, ds, rest),
        Some((Declaration::Clear(_), ds)) => is_overwritten(next, local, ds, rest),
        Some((Declaration::Begin(n, e), ds)) => {
            !mentions(local, e) && (*n == local || is_overwritten(next, local, ds, rest))
        }
        Some((Declaration::Store(_, _, e), ds)) => {
            !mentions(local, e) && is_overwritten(next, local, ds, rest)
        }
        Some((Declaration::Zeros(_, _, _), ds)) => is_overwritten(next, local, ds, rest),
        None => match rest.split_first() {
            None => false,
            Some((Action::Declare(ds), rest)) => is_overwritten(next, local, ds, rest),
            Some((Action::Block(row), _)) => is_overwritten(next, local, &[], row),
            Some((Action::Evaluate(e), rest)) => {
                sets(local, e) || !mentions(local, e) && is_overwritten(next, local, &[], rest)
            }
            Some((Action::For(first, _, _, _), _)) => maybe_sets(local, first),
            Some((Action::Break, _)) => false,
            Some((Action::Continue, _)) => false,
            Some((Action::Return(_), _)) => false,
            Some((Action::If(_, _), _)) => false,
            Some((Action::IfElse(_, _, _), _)) => false,
            Some((Action::While(_, _), _)) => false,
            Some((Action::Do(_, _), _)) => false,
        },
    }
}

/// Whether a declaration writes the local's zero, before other declarations and the statements behind them: 64 of them are looked at.
pub fn is_zeroed(local: u32, ds: &[Declaration], rest: &[Action]) -> bool
    ensures { result ≡ is_zeroed local (map declaration ds.now) (acts rest.now) }
{
    !is_overwritten(64, local, ds, rest)
}
