// What the form of a declarator tells by itself.
ghost use Rattle.std.specs.Prelude.{◌≡◌, MatchOption, None, Some, Ok};
ghost use Rattle.c_types.specs.Answers.{Gives};
ghost use Rattle.c_phrases.specs.Shapes.{exp};
ghost use Rattle.c_phrases.specs.UnitShapes.{declarator_of, length_of, initialised_of};
ghost use Rattle.c_typed_scope.specs.Views.{scope};
ghost use Rattle.c_typed_expressions.specs.Phrases.{init_in, brackets_in};
ghost use Rattle.c_typed_definition.specs.Forms.{text_of, text_fits, form_fits, given_count, own_length, form_of, automatic_form};

use c_phrases::tree::{Declarator, Expr, Initialised, Initialiser, Length};
use c_typed_scope::Blocks;
use c_types::fault::{bad_type, refuse};
use c_types::{CType, TypeFault, TypeKind};

/// The bytes of a string literal, also in parentheses.
#[tactic(auto, unfolding(c_typed_definition::specs::Forms::text_of))]
pub fn text_of(e: &Expr) -> Option<&[u8]>
    ensures { MatchOption result (text_of (exp e.now) ≡ None) (λ b. text_of (exp e.now) ≡ Some b.now) }
{
    match e {
        Expr::Str { bytes, .. } => Some(bytes.as_slice()),
        Expr::Paren { inner, .. } => text_of(inner),
        _ => None,
    }
}

fn is_text(of: CType, e: &Expr) -> bool
    ensures { result ≡ text_fits (text_of (exp e.now)) of }
{
    match text_of(e) {
        None => false,
        Some(_) => of.size() == 1,
    }
}

// An array's initialiser is a list that isn't empty, or for one-byte elements a string literal; any other variable's is
// one value.
#[tactic(auto, using(c_typed_expressions::proofs::Rows::count_is))]
fn form_fits(of: CType, length: &Option<Length>, given: &Option<Initialised>) -> bool
    ensures { result ≡ form_fits of (brackets_in (length_of length.now)) (init_in (initialised_of given.now)) }
{
    match length {
        None => match given {
            None => true,
            Some(given) => match &given.with {
                Initialiser::List { .. } => false,
                Initialiser::Value(_) => true,
            },
        },
        Some(length) => match given {
            None => length.value.is_some(),
            Some(given) => match &given.with {
                Initialiser::List { items, .. } => !items.is_empty(),
                Initialiser::Value(e) => is_text(of, e),
            },
        },
    }
}

/// How many elements an array's initialiser has.
#[tactic(auto, using(c_typed_expressions::proofs::Rows::count_is))]
pub fn given_count(given: &Option<Initialised>) -> usize
    ensures { result ≡ given_count (init_in (initialised_of given.now)) }
{
    match given {
        None => 0,
        Some(given) => match &given.with {
            Initialiser::List { items, .. } => items.len(),
            Initialiser::Value(e) => match text_of(e) {
                None => 0,
                Some(bytes) => bytes.len(),
            },
        },
    }
}

/// How many elements an array without a length gets: a string's closing zero is one.
#[tactic(auto, using(c_typed_expressions::proofs::Rows::count_is))]
pub fn own_length(given: &Option<Initialised>) -> Result<u32, TypeFault>
    ensures { Gives (λ n. n) result (Ok (own_length (init_in (initialised_of given.now)))) }
{
    let count = given_count(given);
    if count >= 0xffff_ffff {
        return Err(TypeFault::NoMemory);
    }
    match given {
        None => Ok(0),
        Some(given) => match &given.with {
            Initialiser::List { .. } => Ok(count as u32),
            Initialiser::Value(_) => Ok(count as u32 + 1),
        },
    }
}

/// What a declarator's own form tells: Twice, BadInit, BadType.
#[tactic(auto, unfolding(c_typed_definition::specs::Forms::form_of))]
pub fn check_form(of: CType, d: &Declarator, blocks: &Blocks) -> Result<(), TypeFault>
    ensures { Gives (λ u. u) result (form_of (declarator_of d.now) of (scope blocks.now)) }
{
    if blocks.is_taken(d.name.as_slice()) {
        return refuse(d.at, TypeKind::Twice);
    }
    if !form_fits(of, &d.length, &d.initialiser) {
        return refuse(d.at, TypeKind::BadInit);
    }
    if of.is_scalar() {
        Ok(())
    } else {
        bad_type(d.at)
    }
}

/// What an automatic variable's own form tells: Twice, BadInit, BadType, also where an array is declared `register`.
#[tactic(auto, unfolding(c_typed_definition::specs::Forms::automatic_form))]
pub fn check_automatic(
    is_register: bool,
    of: CType,
    d: &Declarator,
    blocks: &Blocks,
) -> Result<(), TypeFault>
    ensures { Gives (λ u. u) result (automatic_form is_register (declarator_of d.now) of (scope blocks.now)) }
{
    if blocks.is_taken(d.name.as_slice()) {
        return refuse(d.at, TypeKind::Twice);
    }
    if !form_fits(of, &d.length, &d.initialiser) {
        return refuse(d.at, TypeKind::BadInit);
    }
    if of.is_scalar() && !(is_register && d.length.is_some()) {
        Ok(())
    } else {
        bad_type(d.at)
    }
}
