// Declarators and their initialisers.
ghost use Rattle.std.specs.Prelude.{◌≡◌, length, IfOk, IfErr};
ghost use Rattle.c_syntax_goals.specs.Goals.{Want, ArrayPart, Elements, Init, InitPart, MoreDeclarators};
ghost use Rattle.c_syntax_goals.specs.Expressions.{cond_goals};
ghost use Rattle.c_syntax_goals.specs.Declarators.{declarator_goals, declarator_behind as behind_goals};
ghost use Rattle.c_syntax.specs.Leads.{Fails, Leads, CondLeads};
ghost use Rattle.c_phrases.specs.Classes.{seen};
ghost use Rattle.c_phrases.specs.Spelling.{onto_name, onto_stars};
ghost use Rattle.c_phrases.specs.Shapes.{exp};
ghost use Rattle.c_phrases.specs.UnitShapes.{length_of, init_of, initialised_of, declarator_of, declarators_of};
ghost use Rattle.c_syntax.specs.Reads.{IsRead};
ghost use Rattle.c_phrases.specs.Levels.{limit};
ghost use Rattle.c_phrases.specs.UnitSpelling.{onto_declarator};
ghost use Rattle.c_phrases.specs.Fits.{DeclaratorFits};
ghost use Rattle.c_phrases.specs.UnitLevels.{LowDeclarator};
ghost use Rattle.c_syntax.specs.Stands.{ReadsLength, ReadsInit, ReadsElements, ReadsInitialised, ReadsDeclarator};
ghost use Rattle.c_syntax.specs.Stands.{ReadsDeclarators};

use crate::expressions::{assignment, cast, conditional, put, take_name};
use crate::level::Level;
use crate::take::{not_here, open_levels, take_mark, want_mark};
use crate::types::stars;
use c_phrases::tree::{Declarator, Expr, Initialised, Initialiser, Length, Stars};
use c_syntax_goals::fault::Fault;
use c_tokens::{Mark, Spanned};
use gg_base::Name;
use std::alloc::Global;

/// `cond`
pub fn whole_conditional(
    alloc: Global,
    tokens: &[Spanned],
    level: Level,
) -> Result<(Box<Expr>, &[Spanned], Level), Fault>
    ensures read { IfOk result (λ x. IsRead 2 2 level (seen tokens.now) (exp x.0.value) (seen x.1.now) x.2) }
    ensures leads { IfOk result (λ x. CondLeads level (seen tokens.now) x.2 (seen x.1.now)) }
    ensures fails { IfErr result (Fails cond_goals level (seen tokens.now)) }
{
    let (operand, rest, now) = cast(alloc, tokens, level)?;
    conditional(alloc, operand, rest, now)
}

/// `["[" [cond] "]"]`
pub fn length_part(
    alloc: Global,
    tokens: &[Spanned],
    level: Level,
) -> Result<(Option<Length>, &[Spanned]), Fault>
    ensures read { IfOk result (λ x. ReadsLength level (seen tokens.now) (length_of x.0) (seen x.1.now)) }
    ensures fails { IfErr result (Fails (Want ArrayPart) level (seen tokens.now)) }
    ensures leads { IfOk result (λ x. Leads (Want ArrayPart) level (seen tokens.now) (length_of x.0) level (seen x.1.now)) }
{
    let Some((open, inner)) = take_mark(tokens, Mark::OpenBracket) else {
        return Ok((None, tokens));
    };
    let up = open_levels(level, 1, tokens)?;
    if let Some((_, rest)) = take_mark(inner, Mark::CloseBracket) {
        return Ok((Some(Length { open, value: None }), rest));
    }
    let (value, rest, _) = whole_conditional(alloc, inner, up)?;
    let rest = want_mark(rest, Mark::CloseBracket)?;
    Ok((
        Some(Length {
            open,
            value: Some(Box::into_inner(value)),
        }),
        rest,
    ))
}

// The elements of a list, behind its brace.
fn elements(
    alloc: Global,
    tokens: &[Spanned],
    level: Level,
) -> Result<(Initialiser, &[Spanned]), Fault>
    ensures read { IfOk result (λ x. ReadsElements level (seen tokens.now) (init_of x.0) (seen x.1.now)) }
    ensures fails { IfErr result (Fails (Want Elements) level (seen tokens.now)) }
{
    let (first, mut rest, _) = assignment(alloc, tokens, level)?;
    let mut items = Vec::new(alloc);
    put(&mut items, first)?;
    loop {
        if let Some((_, last)) = take_mark(rest, Mark::CloseBrace) {
            let whole = Initialiser::List {
                items,
                trailing_comma: false,
            };
            return Ok((whole, last));
        }
        let after = want_mark(rest, Mark::Comma)?;
        if let Some((_, last)) = take_mark(after, Mark::CloseBrace) {
            let whole = Initialiser::List {
                items,
                trailing_comma: true,
            };
            return Ok((whole, last));
        }
        let (next, behind, _) = assignment(alloc, after, level)?;
        put(&mut items, next)?;
        rest = behind;
    }
}

fn initialiser(
    alloc: Global,
    tokens: &[Spanned],
    level: Level,
) -> Result<(Initialiser, &[Spanned]), Fault>
    ensures read { IfOk result (λ x. ReadsInit level (seen tokens.now) (init_of x.0) (seen x.1.now)) }
    ensures fails { IfErr result (Fails (Want Init) level (seen tokens.now)) }
    ensures leads { IfOk result (λ x. Leads (Want Init) level (seen tokens.now) (init_of x.0) level (seen x.1.now)) }
{
    let Some((_, inner)) = take_mark(tokens, Mark::OpenBrace) else {
        let (value, rest, _) = assignment(alloc, tokens, level)?;
        return Ok((Initialiser::Value(Box::into_inner(value)), rest));
    };
    let up = open_levels(level, 1, tokens)?;
    elements(alloc, inner, up)
}

/// `["=" init]`
fn initialised(
    alloc: Global,
    tokens: &[Spanned],
    level: Level,
) -> Result<(Option<Initialised>, &[Spanned]), Fault>
    ensures read { IfOk result (λ x. ReadsInitialised level (seen tokens.now) (initialised_of x.0) (seen x.1.now)) }
    ensures fails { IfErr result (Fails (Want InitPart) level (seen tokens.now)) }
    ensures leads { IfOk result (λ x. Leads (Want InitPart) level (seen tokens.now) (initialised_of x.0) level (seen x.1.now)) }
{
    let Some((at, after)) = take_mark(tokens, Mark::Assign) else {
        return Ok((None, tokens));
    };
    let (with, rest) = initialiser(alloc, after, level)?;
    Ok((Some(Initialised { at, with }), rest))
}

/// A declarator behind its name.
pub fn declarator_behind(
    alloc: Global,
    stars: Stars,
    name: Name,
    at: u32,
    tokens: &[Spanned],
    level: Level,
) -> Result<(Declarator, &[Spanned]), Fault>
    ensures read { IfOk result (λ x. ReadsDeclarator level (onto_stars stars (onto_name name at (seen tokens.now)))
        (declarator_of x.0) (seen x.1.now)) }
    ensures fails { IfErr result (Fails (behind_goals stars name at) level (seen tokens.now)) }
    ensures leads { IfOk result (λ x. Leads (behind_goals stars name at) level (seen tokens.now) (declarator_of x.0) level (seen x.1.now)) }
{
    let (length, rest) = length_part(alloc, tokens, level)?;
    let (initialiser, rest) = initialised(alloc, rest, level)?;
    Ok((
        Declarator {
            stars,
            name,
            at,
            length,
            initialiser,
        },
        rest,
    ))
}

/// `decl`
pub fn declarator(
    alloc: Global,
    tokens: &[Spanned],
    level: Level,
) -> Result<(Declarator, &[Spanned]), Fault>
    ensures read { IfOk result (λ x. ReadsDeclarator level (seen tokens.now) (declarator_of x.0) (seen x.1.now)) }
    ensures fails { IfErr result (Fails declarator_goals level (seen tokens.now)) }
    ensures leads { IfOk result (λ x. Leads declarator_goals level (seen tokens.now) (declarator_of x.0) level (seen x.1.now)) }
{
    let (stars, rest) = stars(alloc, tokens)?;
    let Some((name, at, after)) = take_name(alloc, rest)? else {
        return Err(not_here(rest));
    };
    declarator_behind(alloc, stars, name, at, after, level)
}

/// The declarators from the first on, up to the semicolon behind them.
pub fn declarators(
    alloc: Global,
    first: Declarator,
    tokens: &[Spanned],
    level: Level,
) -> Result<(Vec<Declarator>, &[Spanned]), Fault>
    requires { DeclaratorFits (declarator_of first) × LowDeclarator limit (declarator_of first) level }
    ensures read { IfOk result (λ x. ReadsDeclarators level (onto_declarator (declarator_of first) (seen tokens.now))
        (declarators_of x.0.items) (seen x.1.now)) }
    ensures fails { IfErr result (Fails (Want MoreDeclarators) level (seen tokens.now)) }
{
    let mut list = Vec::new(alloc);
    list.push(first)?;
    let mut rest = tokens;
    loop {
        if let Some((_, last)) = take_mark(rest, Mark::Semicolon) {
            return Ok((list, last));
        }
        let after = want_mark(rest, Mark::Comma)?;
        let (next, behind) = declarator(alloc, after, level)?;
        list.push(next)?;
        rest = behind;
    }
}
