// Expressions. The levels bound the recursion.
ghost use Rattle.std.specs.Prelude.{◌≡◌, ◌≤◌, ◌+◌, ◌∷◌, ◌++◌, [], length, IfOk, OnOk, IfSome, IfNone, MatchOption};
ghost use Rattle.c_tokens.specs.declared.marks.Mark.TheVariants as marks;
ghost use Rattle.c_phrases.specs.Classes.{seen, sign};
ghost use Rattle.c_phrases.specs.Phrases.{IsAt};
ghost use Rattle.c_phrases.specs.Spelling.{onto_name};
ghost use Rattle.c_phrases.specs.Shapes.{exp, exp_list};
ghost use Rattle.std.specs.Prelude.{IfErr};
ghost use Rattle.std.specs.Bool.{MatchBool};
ghost use Rattle.c_syntax_goals.specs.declared.fault.Fault.TheVariants as faults;
ghost use Rattle.c_phrases.specs.Takes.{IsTypeWord};
ghost use Rattle.c_syntax_goals.specs.Goals.{Want, Expr as ExprGoal, Assign as AssignGoal, Cast as CastGoal, Unary};
ghost use Rattle.c_syntax_goals.specs.Goals.{Primary, Parens, CallTail, SizeofTail, Arguments};
ghost use Rattle.c_phrases.specs.Fronts.{Quiet, NoCast};
ghost use Rattle.c_syntax.specs.Reads.{IsRead, IsMore, IsPart, Ready, BeginsCast, IsStop, NoName, ReadsArguments};
ghost use Rattle.c_syntax.specs.Reads.{ReadsSizeof, NoNumber, NoString};
ghost use Rattle.c_tokens.specs.declared.token.Token.TheVariants as token;
ghost use Rattle.c_syntax.specs.Leads.{Fails, Leads, TailFails, TailLeads, PostFails, CommasFail};

use crate::level::Level;
use crate::take::{
    begins_type, not_here, open_levels, take_assign, take_binary, take_key, take_mark, take_prefix,
    take_step, want_mark,
};
use crate::types::type_name;
use c_phrases::tree::Expr;
use c_syntax_goals::fault::Fault;
use c_tokens::{Key, Mark, Spanned, Token};
use gg_base::{Bytes, Name};
use std::alloc::Global;

fn bytes_of(alloc: Global, bytes: &[u8]) -> Result<Bytes, Fault>
    ensures copied { IfOk result (λ n. n ≡ bytes.now) }
    ensures memory { IfErr result (λ f. f ≡ faults.NoMemory) }
{
    let mut copy = Vec::new(alloc);
    copy.extend_from_slice(bytes)?;
    Ok(Bytes::from_vec(copy))
}

/// The name at the front, its offset, and what stands behind it.
pub fn take_name(
    alloc: Global,
    tokens: &[Spanned],
) -> Result<Option<(Name, u32, &[Spanned])>, Fault>
    ensures found { IfOk result (λ o. MatchOption o (NoName (seen tokens.now)) (λ x. seen tokens.now ≡ onto_name x.0 x.1 (seen x.2.now))) }
    ensures memory { IfErr result (λ f. f ≡ faults.NoMemory) }
{
    let [first, rest @ ..] = tokens else {
        return Ok(None);
    };
    match &first.kind {
        Token::Name(name) => {
            let name = Name::copy_of(alloc, name.as_slice())?;
            Ok(Some((name, first.start, rest)))
        }
        _ => Ok(None),
    }
}

// The number at the front, its offset, and what stands behind it.
fn take_number(tokens: &[Spanned]) -> Option<(u32, u32, &[Spanned])>
    ensures found { IfSome result (λ x. seen tokens.now ≡ record { kind = token.Number x.0; at = x.1 } ∷ seen x.2.now) }
    ensures none { IfNone result (NoNumber (seen tokens.now)) }
{
    let [first, rest @ ..] = tokens else {
        return None;
    };
    match &first.kind {
        Token::Number(value) => Some((*value, first.start, rest)),
        _ => None,
    }
}

// The string at the front, its offset, and what stands behind it.
fn take_string(alloc: Global, tokens: &[Spanned]) -> Result<Option<(Bytes, u32, &[Spanned])>, Fault>
    ensures found { IfOk result (λ o. MatchOption o (NoString (seen tokens.now))
        (λ x. seen tokens.now ≡ record { kind = token.Str x.0; at = x.1 } ∷ seen x.2.now)) }
    ensures memory { IfErr result (λ f. f ≡ faults.NoMemory) }
{
    let [first, rest @ ..] = tokens else {
        return Ok(None);
    };
    match &first.kind {
        Token::Str(bytes) => {
            let bytes = bytes_of(alloc, bytes.as_slice())?;
            Ok(Some((bytes, first.start, rest)))
        }
        _ => Ok(None),
    }
}

// Nothing but an operator may stand directly behind this.
#[tactic(auto, using(crate::proofs::Stops::open_stops, crate::proofs::Stops::bracket_stops, crate::proofs::Stops::step_stops, crate::proofs::Stops::quiet_of))]
fn ended(rest: &[Spanned]) -> Result<(), Fault>
    ensures quiet { IfOk result (λ _. Quiet 13 (seen rest.now)) }
    ensures stops { IfErr result (λ f. (f ≡ faults.NotHere (length (seen rest.now))) × IsStop (seen rest.now)) }
{
    if let Some(_) = take_mark(rest, Mark::OpenParenthesis) {
        return Err(not_here(rest));
    }
    if let Some(_) = take_mark(rest, Mark::OpenBracket) {
        return Err(not_here(rest));
    }
    if let Some(_) = take_step(rest) {
        return Err(not_here(rest));
    }
    Ok(())
}

// The bracket in front of a type.
fn cast_head(tokens: &[Spanned]) -> Option<(u32, &[Spanned])>
    ensures found { IfSome result (λ x. (seen tokens.now ≡ sign marks.OpenParenthesis x.0 ∷ seen x.1.now) × IsTypeWord (seen x.1.now)) }
    ensures none { IfNone result (NoCast (seen tokens.now)) }
{
    let (open, inner) = take_mark(tokens, Mark::OpenParenthesis)?;
    if begins_type(inner) {
        return Some((open, inner));
    }
    None
}

fn begins_cast(tokens: &[Spanned]) -> bool
    ensures { MatchBool result (BeginsCast (seen tokens.now)) (NoCast (seen tokens.now)) }
{
    cast_head(tokens).is_some()
}

/// One more expression at the end of a list.
pub fn put(list: &mut Vec<Expr>, e: Box<Expr>) -> Result<(), Fault>
    ensures items { OnOk result (list.new.items ≡ list.old.items ++ (e.value ∷ [])) }
    ensures memory { IfErr result (λ f. f ≡ faults.NoMemory) }
{
    list.push(Box::into_inner(e))?;
    Ok(())
}

/// `expr`
#[cycle(expression)]
pub fn expression(
    alloc: Global,
    tokens: &[Spanned],
    level: Level,
) -> Result<(Box<Expr>, &[Spanned], Level), Fault>
    ensures read { IfOk result (λ x. IsRead 0 0 level (seen tokens.now) (exp x.0.value) (seen x.1.now) x.2) }
    ensures fails { IfErr result (Fails (Want ExprGoal) level (seen tokens.now)) }
{
    let (first, rest, now) = assignment(alloc, tokens, level)?;
    commas(alloc, first, rest, now)
}

#[cycle(expression)]
fn commas(
    alloc: Global,
    left: Box<Expr>,
    tokens: &[Spanned],
    level: Level,
) -> Result<(Box<Expr>, &[Spanned], Level), Fault>
    requires at { IsAt 0 (exp left.value) }
    requires quiet { Quiet 1 (seen tokens.now) }
    ensures read { IfOk result (λ x. IsMore 0 0 level (seen tokens.now) (exp left.value) (exp x.0.value) (seen x.1.now) x.2) }
    ensures fails { IfErr result (CommasFail level (seen tokens.now)) }
{
    let Some((_, after)) = take_mark(tokens, Mark::Comma) else {
        return Ok((left, tokens, level));
    };
    let up = open_levels(level, 1, tokens)?;
    let (right, rest, now) = assignment(alloc, after, up)?;
    let both = Box::new(alloc, Expr::Comma { left, right })?;
    commas(alloc, both, rest, now)
}

/// `assign`
#[cycle(expression)]
pub fn assignment(
    alloc: Global,
    tokens: &[Spanned],
    level: Level,
) -> Result<(Box<Expr>, &[Spanned], Level), Fault>
    ensures read { IfOk result (λ x. IsRead 1 1 level (seen tokens.now) (exp x.0.value) (seen x.1.now) x.2) }
    ensures fails { IfErr result (Fails (Want AssignGoal) level (seen tokens.now)) }
{
    if begins_cast(tokens) {
        let (operand, rest, now) = cast(alloc, tokens, level)?;
        return unassigned(alloc, operand, rest, now);
    }
    let (operand, rest, now) = unary(alloc, tokens, level)?;
    let Some((operator, at, after)) = take_assign(rest) else {
        return unassigned(alloc, operand, rest, now);
    };
    let up = open_levels(now, 1, rest)?;
    let (value, rest, now) = assignment(alloc, after, up)?;
    let whole = Expr::Assign {
        place: operand,
        operator,
        at,
        value,
    };
    Ok((Box::new(alloc, whole)?, rest, now))
}

// `cond` from its first operand on, behind which nothing is assigned.
#[cycle(expression)]
fn unassigned(
    alloc: Global,
    first: Box<Expr>,
    tokens: &[Spanned],
    level: Level,
) -> Result<(Box<Expr>, &[Spanned], Level), Fault>
    requires at { IsAt 13 (exp first.value) }
    requires quiet { Quiet 13 (seen tokens.now) }
    ensures read { IfOk result (λ x. IsMore 1 1 level (seen tokens.now) (exp first.value) (exp x.0.value) (seen x.1.now) x.2) }
    ensures fails { IfErr result (TailFails level (seen tokens.now)) }
{
    let (whole, rest, now) = conditional(alloc, first, tokens, level)?;
    if let Some(_) = take_assign(rest) {
        return Err(not_here(rest));
    }
    Ok((whole, rest, now))
}

/// `cond` from its first operand on.
#[cycle(expression)]
pub fn conditional(
    alloc: Global,
    first: Box<Expr>,
    tokens: &[Spanned],
    level: Level,
) -> Result<(Box<Expr>, &[Spanned], Level), Fault>
    requires at { IsAt 13 (exp first.value) }
    requires quiet { Quiet 13 (seen tokens.now) }
    ensures read { IfOk result (λ x. IsMore 2 2 level (seen tokens.now) (exp first.value) (exp x.0.value) (seen x.1.now) x.2) }
    ensures fails { IfErr result (TailFails level (seen tokens.now)) }
    ensures leads { IfOk result (λ x. TailLeads level (seen tokens.now) x.2 (seen x.1.now)) }
{
    let (condition, rest, now) = binary(alloc, first, tokens, level, 3)?;
    let Some((at, inner)) = take_mark(rest, Mark::Question) else {
        return Ok((condition, rest, now));
    };
    let up = open_levels(now, 1, rest)?;
    let (chosen, rest, now) = expression(alloc, inner, up)?;
    let rest = want_mark(rest, Mark::Colon)?;
    let (operand, rest, now) = cast(alloc, rest, now)?;
    let (other, rest, now) = conditional(alloc, operand, rest, now)?;
    let whole = Expr::Choice {
        condition,
        at,
        first: chosen,
        second: other,
    };
    Ok((Box::new(alloc, whole)?, rest, now))
}

// Binary operators of the level `lowest` and above, behind an operand; each groups to the left.
#[cycle(expression)]
fn binary(
    alloc: Global,
    left: Box<Expr>,
    tokens: &[Spanned],
    level: Level,
    lowest: u32,
) -> Result<(Box<Expr>, &[Spanned], Level), Fault>
    requires least { 3 ≤ lowest }
    requires ready { Ready lowest (exp left.value) (seen tokens.now) }
    ensures read { IfOk result (λ x. IsMore lowest lowest level (seen tokens.now) (exp left.value) (exp x.0.value) (seen x.1.now) x.2) }
    ensures fails { IfErr result (TailFails level (seen tokens.now)) }
    ensures leads { IfOk result (λ x. TailLeads level (seen tokens.now) x.2 (seen x.1.now)) }
{
    let Some((operator, at, after)) = take_binary(tokens) else {
        return Ok((left, tokens, level));
    };
    if operator.level() < lowest {
        return Ok((left, tokens, level));
    }
    let up = open_levels(level, 1, tokens)?;
    let (operand, rest, now) = cast(alloc, after, up)?;
    let (right, rest, now) = binary(alloc, operand, rest, now, operator.level() + 1)?;
    let both = Expr::Binary {
        left,
        operator,
        at,
        right,
    };
    binary(alloc, Box::new(alloc, both)?, rest, now, lowest)
}

/// `cast`
#[cycle(expression)]
pub fn cast(
    alloc: Global,
    tokens: &[Spanned],
    level: Level,
) -> Result<(Box<Expr>, &[Spanned], Level), Fault>
    ensures read { IfOk result (λ x. IsRead 13 13 level (seen tokens.now) (exp x.0.value) (seen x.1.now) x.2) }
    ensures fails { IfErr result (Fails (Want CastGoal) level (seen tokens.now)) }
{
    let Some((open, inner)) = cast_head(tokens) else {
        return unary(alloc, tokens, level);
    };
    let up = open_levels(level, 1, tokens)?;
    let (to, rest) = type_name(alloc, inner)?;
    let rest = want_mark(rest, Mark::CloseParenthesis)?;
    let (operand, rest, now) = cast(alloc, rest, up)?;
    let whole = Expr::Cast { open, to, operand };
    Ok((Box::new(alloc, whole)?, rest, now))
}

#[cycle(expression)]
fn unary(
    alloc: Global,
    tokens: &[Spanned],
    level: Level,
) -> Result<(Box<Expr>, &[Spanned], Level), Fault>
    ensures read { IfOk result (λ x. IsRead 14 13 level (seen tokens.now) (exp x.0.value) (seen x.1.now) x.2) }
    ensures fails { IfErr result (Fails (Want Unary) level (seen tokens.now)) }
{
    if let Some((operator, at, after)) = take_prefix(tokens) {
        let up = open_levels(level, 1, tokens)?;
        let (operand, rest, now) = cast(alloc, after, up)?;
        let whole = Expr::Prefix {
            operator,
            at,
            operand,
        };
        return Ok((Box::new(alloc, whole)?, rest, now));
    }
    if let Some((operator, at, after)) = take_step(tokens) {
        let up = open_levels(level, 1, tokens)?;
        let (operand, rest, now) = unary(alloc, after, up)?;
        let whole = Expr::StepBefore {
            operator,
            at,
            operand,
        };
        return Ok((Box::new(alloc, whole)?, rest, now));
    }
    if let Some((at, after)) = take_key(tokens, Key::Sizeof) {
        let up = open_levels(level, 1, tokens)?;
        return sizeof(alloc, at, after, up);
    }
    let (base, rest, now) = primary(alloc, tokens, level)?;
    postfix(alloc, base, rest, now)
}

// Behind the word `sizeof`, which opened the level.
#[cycle(expression)]
fn sizeof(
    alloc: Global,
    at: u32,
    tokens: &[Spanned],
    level: Level,
) -> Result<(Box<Expr>, &[Spanned], Level), Fault>
    ensures read { IfOk result (λ x. ReadsSizeof at level (seen tokens.now) (exp x.0.value) (seen x.1.now) x.2) }
    ensures fails { IfErr result (Fails (Want (SizeofTail at)) level (seen tokens.now)) }
{
    let Some((open, inner)) = cast_head(tokens) else {
        let (operand, rest, now) = unary(alloc, tokens, level)?;
        let whole = Expr::SizeofExpr { at, operand };
        return Ok((Box::new(alloc, whole)?, rest, now));
    };
    let _up = open_levels(level, 1, tokens)?;
    let (of, rest) = type_name(alloc, inner)?;
    let rest = want_mark(rest, Mark::CloseParenthesis)?;
    ended(rest)?;
    let whole = Expr::SizeofType { at, open, of };
    Ok((Box::new(alloc, whole)?, rest, level))
}

#[cycle(expression)]
fn primary(
    alloc: Global,
    tokens: &[Spanned],
    level: Level,
) -> Result<(Box<Expr>, &[Spanned], Level), Fault>
    ensures read { IfOk result (λ x. IsPart level (seen tokens.now) (exp x.0.value) (seen x.1.now) x.2) }
    ensures fails { IfErr result (Fails (Want Primary) level (seen tokens.now)) }
    ensures leads { IfOk result (λ x. Leads (Want Primary) level (seen tokens.now) (exp x.0.value) x.2 (seen x.1.now)) }
{
    if let Some((name, at, rest)) = take_name(alloc, tokens)? {
        return named(alloc, name, at, rest, level);
    }
    if let Some((value, at, rest)) = take_number(tokens) {
        let whole = Expr::Number { value, at };
        return Ok((Box::new(alloc, whole)?, rest, level));
    }
    if let Some((bytes, at, rest)) = take_string(alloc, tokens)? {
        let whole = Expr::Str { bytes, at };
        return Ok((Box::new(alloc, whole)?, rest, level));
    }
    parenthesised(alloc, tokens, level)
}

#[cycle(expression)]
fn parenthesised(
    alloc: Global,
    tokens: &[Spanned],
    level: Level,
) -> Result<(Box<Expr>, &[Spanned], Level), Fault>
    ensures read { IfOk result (λ x. IsPart level (seen tokens.now) (exp x.0.value) (seen x.1.now) x.2) }
    ensures fails { IfErr result (Fails (Want Parens) level (seen tokens.now)) }
    ensures leads { IfOk result (λ x. Leads (Want Parens) level (seen tokens.now) (exp x.0.value) x.2 (seen x.1.now)) }
{
    let Some((open, inner)) = take_mark(tokens, Mark::OpenParenthesis) else {
        return Err(not_here(tokens));
    };
    let up = open_levels(level, 1, tokens)?;
    let (inner, rest, _) = expression(alloc, inner, up)?;
    let rest = want_mark(rest, Mark::CloseParenthesis)?;
    let whole = Expr::Paren { open, inner };
    Ok((Box::new(alloc, whole)?, rest, level))
}

// Behind a name: a call where a bracket opens.
#[cycle(expression)]
fn named(
    alloc: Global,
    name: Name,
    at: u32,
    tokens: &[Spanned],
    level: Level,
) -> Result<(Box<Expr>, &[Spanned], Level), Fault>
    ensures read { IfOk result (λ x. IsPart level (onto_name name at (seen tokens.now)) (exp x.0.value) (seen x.1.now) x.2) }
    ensures fails { IfErr result (Fails (Want (CallTail name at)) level (seen tokens.now)) }
    ensures leads { IfOk result (λ x. Leads (Want (CallTail name at)) level (seen tokens.now) (exp x.0.value) x.2 (seen x.1.now)) }
{
    let Some((open, inner)) = take_mark(tokens, Mark::OpenParenthesis) else {
        let whole = Expr::Name { name, at };
        return Ok((Box::new(alloc, whole)?, tokens, level));
    };
    let up = open_levels(level, 2, tokens)?;
    let (arguments, rest) = arguments(alloc, inner, up)?;
    let whole = Expr::Call {
        name,
        at,
        open,
        arguments,
    };
    Ok((Box::new(alloc, whole)?, rest, up.closed()))
}

#[cycle(expression)]
fn arguments(
    alloc: Global,
    tokens: &[Spanned],
    level: Level,
) -> Result<(Vec<Expr>, &[Spanned]), Fault>
    ensures read { IfOk result (λ x. ReadsArguments level (seen tokens.now) (exp_list x.0.items) (seen x.1.now)) }
    ensures fails { IfErr result (Fails (Want Arguments) level (seen tokens.now)) }
{
    let mut list = Vec::new(alloc);
    if let Some((_, rest)) = take_mark(tokens, Mark::CloseParenthesis) {
        return Ok((list, rest));
    }
    let (first, mut rest, _) = assignment(alloc, tokens, level)?;
    put(&mut list, first)?;
    while let Some((_, after)) = take_mark(rest, Mark::Comma) {
        let (next, behind, _) = assignment(alloc, after, level)?;
        put(&mut list, next)?;
        rest = behind;
    }
    let rest = want_mark(rest, Mark::CloseParenthesis)?;
    Ok((list, rest))
}

// Indexes and steps behind an operand.
#[cycle(expression)]
fn postfix(
    alloc: Global,
    base: Box<Expr>,
    tokens: &[Spanned],
    level: Level,
) -> Result<(Box<Expr>, &[Spanned], Level), Fault>
    requires at { IsAt 15 (exp base.value) }
    ensures read { IfOk result (λ x. IsMore 15 13 level (seen tokens.now) (exp base.value) (exp x.0.value) (seen x.1.now) x.2) }
    ensures fails { IfErr result (PostFails level (seen tokens.now)) }
{
    if let Some((open, inner)) = take_mark(tokens, Mark::OpenBracket) {
        let up = open_levels(level, 2, tokens)?;
        let (index, rest, _) = expression(alloc, inner, up)?;
        let rest = want_mark(rest, Mark::CloseBracket)?;
        let whole = Expr::Index { base, open, index };
        return postfix(alloc, Box::new(alloc, whole)?, rest, up.closed());
    }
    if let Some((operator, at, rest)) = take_step(tokens) {
        let up = open_levels(level, 1, tokens)?;
        let whole = Expr::StepAfter {
            operand: base,
            operator,
            at,
        };
        return postfix(alloc, Box::new(alloc, whole)?, rest, up);
    }
    ended(tokens)?;
    Ok((base, tokens, level))
}
