// What stands at file level, and the parser.
ghost use Rattle.std.specs.Prelude.{◌≡◌, ◌≤◌, ◌∷◌, ◌++◌, ◌^◌, ◌<◌, [], IfOk, IfSome, IfNone};
ghost use Rattle.c_tokens.specs.declared.token.Token.TheVariants as token;
ghost use Rattle.c_tokens.specs.declared.words.Key.TheVariants as keys;
ghost use Rattle.c_tokens.specs.declared.marks.Mark.TheVariants as marks;
ghost use Rattle.c_phrases.specs.Classes.{seen, word, sign};
ghost use Rattle.c_phrases.specs.Spelling.{onto_stars, onto_name};
ghost use Rattle.c_phrases.specs.UnitShapes.{params_of, param_of, param_list, body_of, declared_of, external_of, externals_of, unit_of};
ghost use Rattle.std.specs.Prelude.{ℕ, IfErr, length};
ghost use Rattle.c_syntax_goals.specs.declared.fault.Fault.TheVariants.{NoMemory};
ghost use Rattle.c_syntax_goals.specs.declared.fault.Fault.TheVariants as faults;
ghost use Rattle.c_syntax_goals.specs.Goals.{Stack, Want, TypeWords, OptName, Body, Whole, Params as ParamsGoal};
ghost use Rattle.c_syntax_goals.specs.Goals.{External as ExternalGoal};
ghost use Rattle.c_syntax_goals.specs.Externals.{param_goals, list_goals, function_behind, declared_goals};
ghost use Rattle.c_syntax_goals.specs.Externals.{external_rest};
ghost use Rattle.c_syntax_goals.specs.Machine.{run};
ghost use Rattle.c_phrases.specs.Levels.{limit};
ghost use Rattle.c_phrases.specs.Fronts.{IsNot};
ghost use Rattle.c_tokens.specs.Grammar.{IsEnded};
ghost use Rattle.c_syntax_goals.specs.Refusals.{IsPlace};
ghost use Rattle.c_syntax.specs.Leads.{Fails, Leads};
ghost use Rattle.c_syntax.specs.Ends.{body_ends};
ghost use Rattle.c_syntax.specs.Answers.{IsThat, Refused, HasFault, IsOnlyFault};
ghost use Rattle.c_syntax.specs.declared.fault.SyntaxFault.{SyntaxFault};
ghost use Rattle.c_phrases.specs.Units.{AUnit, AnExternal};
ghost use Rattle.c_phrases.specs.UnitSpelling.{onto_named, onto_static};
ghost use Rattle.c_phrases.specs.Grammar.{IsUnit};
ghost use Rattle.c_syntax.specs.Stands.{ReadsParam, ParamsSoFar, ReadsParams, ReadsBody, ReadsDeclared, ReadsExternal};
ghost use Rattle.c_syntax.specs.Stands.{ReadsExternals};
ghost use Rattle.c_syntax.specs.StatementLeads.{NoVoidAlone, HasToken};

use crate::declarations::{declarator_behind, declarators, length_part};
use crate::ends::body_ends;
use crate::expressions::take_name;
use crate::fault::SyntaxFault;
use crate::level::Level;
use crate::statements::items;
use crate::take::{not_here, open_levels, take_key, take_mark, want_mark};
use crate::types::{spec, stars};
use c_phrases::tree::{Ast, Declared, External, Function, Item, Named, Param, Params, Stars};
use c_syntax_goals::fault::Fault;
use c_tokens::{Key, Mark, Spanned, Token};
use gg_base::Name;
use std::alloc::Global;

fn named(alloc: Global, tokens: &[Spanned]) -> Result<(Option<Named>, &[Spanned]), Fault>
    ensures read { IfOk result (λ x. seen tokens.now ≡ onto_named x.0 (seen x.1.now)) }
    ensures memory { IfErr result (λ f. f ≡ NoMemory) }
    ensures leads { (n : ℕ) → IfOk result (λ x. Leads (Want OptName) n (seen tokens.now) x.0 n (seen x.1.now)) }
{
    match take_name(alloc, tokens)? {
        Some((name, at, rest)) => Ok((Some(Named { name, at }), rest)),
        None => Ok((None, tokens)),
    }
}

/// `param`
fn param(alloc: Global, tokens: &[Spanned], level: Level) -> Result<(Param, &[Spanned]), Fault>
    ensures read { IfOk result (λ x. ReadsParam level (seen tokens.now) (param_of x.0) (seen x.1.now)) }
    ensures fails { IfErr result (Fails param_goals level (seen tokens.now)) }
    ensures leads { IfOk result (λ x. Leads param_goals level (seen tokens.now) (param_of x.0) level (seen x.1.now)) }
{
    let (spec, rest) = spec(tokens)?;
    let (stars, rest) = stars(alloc, rest)?;
    let (name, rest) = named(alloc, rest)?;
    let (length, rest) = length_part(alloc, rest, level)?;
    Ok((
        Param {
            spec,
            stars,
            name,
            length,
        },
        rest,
    ))
}

// The word `void` alone, in front of the closing bracket.
fn void_alone(tokens: &[Spanned]) -> Option<(u32, &[Spanned])>
    ensures found { IfSome result (λ x. seen tokens.now ≡ word keys.Void x.0 ∷ sign marks.CloseParenthesis 0 ∷ seen x.1.now) }
    ensures none { IfNone result (NoVoidAlone (seen tokens.now)) }
{
    let (at, rest) = take_key(tokens, Key::Void)?;
    let (_, last) = take_mark(rest, Mark::CloseParenthesis)?;
    Some((at, last))
}

fn param_list(
    alloc: Global,
    tokens: &[Spanned],
    level: Level,
) -> Result<(Vec<Param>, &[Spanned]), Fault>
    ensures read { IfOk result (λ x. ParamsSoFar level (seen tokens.now) (param_list x.0.items)
        (sign marks.CloseParenthesis 0 ∷ seen x.1.now)) }
    ensures fails { IfErr result (Fails list_goals level (seen tokens.now)) }
{
    let (first, mut rest) = param(alloc, tokens, level)?;
    let mut list = Vec::new(alloc);
    list.push(first)?;
    while let Some((_, after)) = take_mark(rest, Mark::Comma) {
        let (next, behind) = param(alloc, after, level)?;
        list.push(next)?;
        rest = behind;
    }
    let last = want_mark(rest, Mark::CloseParenthesis)?;
    Ok((list, last))
}

/// `params`, up to the bracket that closes them.
fn params(alloc: Global, tokens: &[Spanned], level: Level) -> Result<(Params, &[Spanned]), Fault>
    ensures read { IfOk result (λ x. ReadsParams level (seen tokens.now) (params_of x.0) (seen x.1.now)) }
    ensures fails { IfErr result (Fails (Want ParamsGoal) level (seen tokens.now)) }
{
    if let Some((_, last)) = take_mark(tokens, Mark::CloseParenthesis) {
        return Ok((Params::None, last));
    }
    if let Some((at, last)) = void_alone(tokens) {
        return Ok((Params::Void { at }, last));
    }
    let (list, last) = param_list(alloc, tokens, level)?;
    Ok((Params::List(list), last))
}

fn body(alloc: Global, tokens: &[Spanned]) -> Result<(Option<Vec<Item>>, &[Spanned]), Fault>
    ensures read { IfOk result (λ x. ReadsBody (seen tokens.now) (body_of x.0) (seen x.1.now)) }
    ensures fails { IfErr result (Fails (Want Body) 0 (seen tokens.now)) }
{
    if let Some((_, rest)) = take_mark(tokens, Mark::Semicolon) {
        return Ok((None, rest));
    }
    let inner = want_mark(tokens, Mark::OpenBrace)?;
    let up = open_levels(Level::OUTER, 1, tokens)?;
    let (items, rest) = items(alloc, inner, up)?;
    Ok((Some(items), rest))
}

// A function behind the bracket of its parameters.
fn function(
    alloc: Global,
    stars: Stars,
    name: Name,
    at: u32,
    bracket: u32,
    tokens: &[Spanned],
) -> Result<(Declared, &[Spanned]), Fault>
    ensures read { IfOk result (λ x. ReadsDeclared (onto_stars stars (onto_name name at
        (sign marks.OpenParenthesis bracket ∷ seen tokens.now))) (declared_of x.0) (seen x.1.now)) }
    ensures fails { IfErr result (Fails (function_behind stars name at bracket 0) 1 (seen tokens.now)) }
{
    let (params, rest) = params(alloc, tokens, Level::FIRST)?;
    let (body, rest) = body(alloc, rest)?;
    let function = Function {
        stars,
        name,
        at,
        open: bracket,
        params,
        body,
    };
    Ok((Declared::Function(function), rest))
}

// What stands behind the words of a type.
fn declared(alloc: Global, tokens: &[Spanned]) -> Result<(Declared, &[Spanned]), Fault>
    ensures read { IfOk result (λ x. ReadsDeclared (seen tokens.now) (declared_of x.0) (seen x.1.now)) }
    ensures fails { IfErr result (Fails declared_goals 0 (seen tokens.now)) }
{
    let (stars, rest) = stars(alloc, tokens)?;
    let Some((name, at, rest)) = take_name(alloc, rest)? else {
        return Err(not_here(rest));
    };
    if let Some((open, inner)) = take_mark(rest, Mark::OpenParenthesis) {
        return function(alloc, stars, name, at, open, inner);
    }
    let (first, rest) = declarator_behind(alloc, stars, name, at, rest, Level::OUTER)?;
    let (list, rest) = declarators(alloc, first, rest, Level::OUTER)?;
    Ok((Declared::Globals(list), rest))
}

fn static_word(tokens: &[Spanned]) -> (Option<u32>, &[Spanned])
    ensures leads { (κ : AnExternal → Stack) → run limit (Want ExternalGoal κ) 0 (seen tokens.now)
        ≡ run limit (Want TypeWords (external_rest result.0 κ)) 0 (seen result.1.now) }
    ensures read { seen tokens.now ≡ onto_static result.0 (seen result.1.now) }
{
    match take_key(tokens, Key::Static) {
        Some((at, rest)) => (Some(at), rest),
        None => (None, tokens),
    }
}

/// `external`
fn external(alloc: Global, tokens: &[Spanned]) -> Result<(External, &[Spanned]), Fault>
    ensures read { IfOk result (λ x. ReadsExternal (seen tokens.now) (external_of x.0) (seen x.1.now)) }
    ensures fails { IfErr result (Fails (Want ExternalGoal) 0 (seen tokens.now)) }
{
    let (static_at, rest) = static_word(tokens);
    let (spec, rest) = spec(rest)?;
    let (declared, rest) = declared(alloc, rest)?;
    Ok((
        External {
            static_at,
            spec,
            declared,
        },
        rest,
    ))
}

// The offset of the end, and what stands behind it.
fn take_end(tokens: &[Spanned]) -> Option<(u32, &[Spanned])>
    ensures found { IfSome result (λ x. seen tokens.now ≡ record { kind = token.End; at = x.0 } ∷ seen x.1.now) }
    ensures none { IfNone result (IsNot token.End (seen tokens.now)) }
{
    let [first, rest @ ..] = tokens else {
        return None;
    };
    match &first.kind {
        Token::End => Some((first.start, rest)),
        _ => None,
    }
}

// No token stands behind the end.
fn nothing_behind(tokens: &[Spanned]) -> Result<(), Fault>
    ensures nothing { IfOk result (λ _. seen tokens.now ≡ []) }
    ensures other { IfErr result (λ f. (f ≡ faults.NotHere (length (seen tokens.now))) × HasToken (seen tokens.now)) }
{
    if let [_, ..] = tokens {
        return Err(not_here(tokens));
    }
    Ok(())
}

/// `unit`
fn unit(alloc: Global, tokens: &[Spanned]) -> Result<Ast, Fault>
    ensures read { IfOk result (λ u. IsUnit (seen tokens.now) (unit_of u)) }
    ensures ends { IfOk result (λ u. u.body_ends ≡ body_ends tokens.now) }
    ensures fails { IfErr result (Fails (Want Whole) 0 (seen tokens.now)) }
{
    let mut externals = Vec::new(alloc);
    let mut rest = tokens;
    loop {
        if let Some((end, behind)) = take_end(rest) {
            nothing_behind(behind)?;
            return Ok(Ast {
                externals,
                body_ends: body_ends(alloc, tokens)?,
                end,
            });
        }
        let (next, behind) = external(alloc, rest)?;
        externals.push(next)?;
        rest = behind;
    }
}

// The offset of the token with which so many are left; where none is, of the last.
fn offset_of(tokens: &[Spanned], left: usize) -> u32
    ensures { 0 < left → left ≤ length tokens.now → IsPlace tokens.now left result }
{
    if left == 0 || left > tokens.len() {
        return match tokens {
            [.., last] => last.start,
            [] => 0,
        };
    }
    tokens[tokens.len() - left].start
}

/// The phrases of a source's tokens, whose last is `End`; or the first token that may not stand where it stands, or that opens
/// the 201st level.
pub fn parse(alloc: Global, tokens: &[Spanned]) -> Result<Ast, SyntaxFault>
    ensures found { IfOk result (λ u. IsUnit (seen tokens.now) (unit_of u)) }
    ensures ends { IfOk result (λ u. u.body_ends ≡ body_ends tokens.now) }
    ensures alone { (u : AUnit) → IsUnit (seen tokens.now) u → IfOk result (λ v. unit_of v ≡ u) }
    ensures only { (u : AUnit) → IsUnit (seen tokens.now) u → IsThat result u }
    ensures refused { IfErr result (Refused tokens.now) }
    ensures first { IsEnded tokens.now → (f : SyntaxFault) → HasFault tokens.now f → IsOnlyFault result f }
{
    match unit(alloc, tokens) {
        Ok(ast) => Ok(ast),
        Err(Fault::NoMemory) => Err(SyntaxFault::NoMemory),
        Err(Fault::NotHere(left)) => Err(SyntaxFault::NotHere(offset_of(tokens, left))),
        Err(Fault::TooDeep(left)) => Err(SyntaxFault::TooDeep(offset_of(tokens, left))),
    }
}
