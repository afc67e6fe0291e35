// Statements. The levels bound the recursion.
ghost use Rattle.std.specs.Prelude.{◌≡◌, ◌∷◌, ℕ, false, IfOk, IfErr};
ghost use Rattle.std.specs.Bool.{MatchBool};
ghost use Rattle.c_tokens.specs.declared.token.Token.TheVariants as token;
ghost use Rattle.c_syntax_goals.specs.Goals.{Stack, Want, TypeWords, Condition, PartSemi, Simple, Items};
ghost use Rattle.c_syntax_goals.specs.Goals.{Local as LocalGoal, Statement as StatementGoal};
ghost use Rattle.c_syntax_goals.specs.Statements.{if_goals, while_goals, do_goals, for_goals, local_rest};
ghost use Rattle.c_syntax_goals.specs.Machine.{run};
ghost use Rattle.c_phrases.specs.Levels.{limit};
ghost use Rattle.c_phrases.specs.Units.{ALocal, no_items};
ghost use Rattle.c_phrases.specs.Fronts.{IsNot};
ghost use Rattle.c_syntax.specs.Leads.{Fails};
ghost use Rattle.c_phrases.specs.Fronts.{BeginsLocal, NoLocal};
ghost use Rattle.c_syntax.specs.StatementLeads.{PartFails, ItemsLead};
ghost use Rattle.c_tokens.specs.declared.words.Key.TheVariants as keys;
ghost use Rattle.c_tokens.specs.declared.marks.Mark.TheVariants as marks;
ghost use Rattle.c_phrases.specs.Classes.{seen, word, sign, is_kept, mark_class};
ghost use Rattle.c_phrases.specs.Shapes.{exp};
ghost use Rattle.c_phrases.specs.UnitShapes.{part, local_of, statement_of, item_onto, items_of};
ghost use Rattle.c_phrases.specs.UnitSpelling.{onto_storage};
ghost use Rattle.c_syntax.specs.Stands.{ReadsPart, ReadsLocal, ReadsCondition, ReadsStatement, ReadsBehind};
ghost use Rattle.c_syntax.specs.Stands.{ReadsAfter, ReadsItems};

use crate::declarations::{declarator, declarators};
use crate::expressions::expression;
use crate::level::Level;
use crate::take::{begins_type, not_here, open_levels, take_key, take_mark, want_mark};
use crate::types::spec;
use c_phrases::operator::Storage;
use c_phrases::tree::{Expr, Item, Local, Statement};
use c_syntax_goals::fault::Fault;
use c_tokens::{Key, Mark, Spanned};
use std::alloc::Global;

// `[expr]` up to the mark that ends it.
fn part_until(
    alloc: Global,
    tokens: &[Spanned],
    level: Level,
    end: Mark,
) -> Result<(Option<Expr>, &[Spanned]), Fault>
    requires { is_kept (mark_class end) ≡ false }
    ensures read { IfOk result (λ x. ReadsPart level (seen tokens.now) (part x.0) (sign end 0 ∷ seen x.1.now)) }
    ensures fails { IfErr result (PartFails end level (seen tokens.now)) }
{
    if let Some((_, rest)) = take_mark(tokens, end) {
        return Ok((None, rest));
    }
    let (value, rest, _) = expression(alloc, tokens, level)?;
    let rest = want_mark(rest, end)?;
    Ok((Some(Box::into_inner(value)), rest))
}

// `"(" expr ")"`, with the offset of the bracket.
fn condition(
    alloc: Global,
    tokens: &[Spanned],
    level: Level,
) -> Result<(u32, Box<Expr>, &[Spanned]), Fault>
    ensures read { IfOk result (λ x. ReadsCondition level x.0 (seen tokens.now) (exp x.1.value) (seen x.2.now)) }
    ensures fails { IfErr result (Fails (Want Condition) level (seen tokens.now)) }
{
    let Some((open, inner)) = take_mark(tokens, Mark::OpenParenthesis) else {
        return Err(not_here(tokens));
    };
    let up = open_levels(level, 1, tokens)?;
    let (value, rest, _) = expression(alloc, inner, up)?;
    let rest = want_mark(rest, Mark::CloseParenthesis)?;
    Ok((open, value, rest))
}

fn storage(tokens: &[Spanned]) -> (Storage, &[Spanned])
    ensures leads { (n : ℕ) (κ : ALocal → Stack) → run limit (Want LocalGoal κ) n (seen tokens.now)
        ≡ run limit (Want TypeWords (local_rest result.0 κ)) n (seen result.1.now) }
    ensures read { seen tokens.now ≡ onto_storage result.0 (seen result.1.now) }
{
    if let Some((at, rest)) = take_key(tokens, Key::Static) {
        return (Storage::Static { at }, rest);
    }
    if let Some((at, rest)) = take_key(tokens, Key::Register) {
        return (Storage::Register { at }, rest);
    }
    (Storage::Automatic, tokens)
}

/// `local`
fn local(alloc: Global, tokens: &[Spanned], level: Level) -> Result<(Local, &[Spanned]), Fault>
    ensures read { IfOk result (λ x. ReadsLocal level (seen tokens.now) (local_of x.0) (seen x.1.now)) }
    ensures fails { IfErr result (Fails (Want LocalGoal) level (seen tokens.now)) }
{
    let (storage, rest) = storage(tokens);
    let (spec, rest) = spec(rest)?;
    let (first, rest) = declarator(alloc, rest, level)?;
    let (declarators, rest) = declarators(alloc, first, rest, level)?;
    Ok((
        Local {
            storage,
            spec,
            declarators,
        },
        rest,
    ))
}

fn begins_local(tokens: &[Spanned]) -> bool
    ensures { MatchBool result (BeginsLocal (seen tokens.now)) (NoLocal (seen tokens.now)) }
{
    if let Some(_) = take_key(tokens, Key::Static) {
        return true;
    }
    if let Some(_) = take_key(tokens, Key::Register) {
        return true;
    }
    begins_type(tokens)
}

// A statement that is a word and a semicolon, behind the word.
fn returned(
    alloc: Global,
    at: u32,
    tokens: &[Spanned],
    level: Level,
) -> Result<(Statement, &[Spanned]), Fault>
    ensures read { IfOk result (λ x. ReadsAfter (word keys.Return at) level (seen tokens.now) (statement_of x.0) (seen x.1.now)) }
    ensures fails { IfErr result (Fails (Want PartSemi) level (seen tokens.now)) }
{
    let (value, rest) = part_until(alloc, tokens, level, Mark::Semicolon)?;
    Ok((Statement::Return { at, value }, rest))
}

// The statements that hold no other statement.
fn simple(alloc: Global, tokens: &[Spanned], level: Level) -> Result<(Statement, &[Spanned]), Fault>
    ensures read { IfOk result (λ x. ReadsStatement level (seen tokens.now) (statement_of x.0) (seen x.1.now)) }
    ensures fails { IfErr result (Fails (Want Simple) level (seen tokens.now)) }
{
    if let Some((_, rest)) = take_mark(tokens, Mark::Semicolon) {
        return Ok((Statement::Empty, rest));
    }
    if let Some((at, after)) = take_key(tokens, Key::Break) {
        let rest = want_mark(after, Mark::Semicolon)?;
        return Ok((Statement::Break { at }, rest));
    }
    if let Some((at, after)) = take_key(tokens, Key::Continue) {
        let rest = want_mark(after, Mark::Semicolon)?;
        return Ok((Statement::Continue { at }, rest));
    }
    if let Some((at, after)) = take_key(tokens, Key::Return) {
        return returned(alloc, at, after, level);
    }
    let (value, rest, _) = expression(alloc, tokens, level)?;
    let rest = want_mark(rest, Mark::Semicolon)?;
    Ok((Statement::Expr(Box::into_inner(value)), rest))
}

/// `statement`
#[cycle(statement)]
pub fn statement(
    alloc: Global,
    tokens: &[Spanned],
    level: Level,
) -> Result<(Statement, &[Spanned]), Fault>
    ensures read { IfOk result (λ x. ReadsStatement level (seen tokens.now) (statement_of x.0) (seen x.1.now)) }
    ensures fails { IfErr result (Fails (Want StatementGoal) level (seen tokens.now)) }
{
    if let Some((_, inner)) = take_mark(tokens, Mark::OpenBrace) {
        let up = open_levels(level, 1, tokens)?;
        let (items, rest) = items(alloc, inner, up)?;
        return Ok((Statement::Block(items), rest));
    }
    if let Some((at, after)) = take_key(tokens, Key::If) {
        let up = open_levels(level, 1, tokens)?;
        return if_behind(alloc, at, after, up);
    }
    if let Some((at, after)) = take_key(tokens, Key::While) {
        let up = open_levels(level, 1, tokens)?;
        return while_behind(alloc, at, after, up);
    }
    if let Some((at, after)) = take_key(tokens, Key::Do) {
        let up = open_levels(level, 1, tokens)?;
        return do_behind(alloc, at, after, up);
    }
    if let Some((at, after)) = take_key(tokens, Key::For) {
        let up = open_levels(level, 1, tokens)?;
        return for_behind(alloc, at, after, up);
    }
    simple(alloc, tokens, level)
}

#[cycle(statement)]
fn if_behind(
    alloc: Global,
    at: u32,
    tokens: &[Spanned],
    level: Level,
) -> Result<(Statement, &[Spanned]), Fault>
    ensures read { IfOk result (λ x. ReadsBehind (word keys.If at) level (seen tokens.now) (statement_of x.0) (seen x.1.now)) }
    ensures fails { IfErr result (Fails (if_goals at) level (seen tokens.now)) }
{
    let (open, condition, rest) = condition(alloc, tokens, level)?;
    let (then, rest) = statement(alloc, rest, level)?;
    let then = Box::new(alloc, then)?;
    let Some((else_at, after)) = take_key(rest, Key::Else) else {
        let whole = Statement::If {
            at,
            open,
            condition: Box::into_inner(condition),
            then,
        };
        return Ok((whole, rest));
    };
    let (otherwise, rest) = statement(alloc, after, level)?;
    let otherwise = Box::new(alloc, otherwise)?;
    let whole = Statement::IfElse {
        at,
        open,
        condition: Box::into_inner(condition),
        then,
        else_at,
        otherwise,
    };
    Ok((whole, rest))
}

#[cycle(statement)]
fn while_behind(
    alloc: Global,
    at: u32,
    tokens: &[Spanned],
    level: Level,
) -> Result<(Statement, &[Spanned]), Fault>
    ensures read { IfOk result (λ x. ReadsBehind (word keys.While at) level (seen tokens.now) (statement_of x.0) (seen x.1.now)) }
    ensures fails { IfErr result (Fails (while_goals at) level (seen tokens.now)) }
{
    let (open, condition, rest) = condition(alloc, tokens, level)?;
    let (body, rest) = statement(alloc, rest, level)?;
    let body = Box::new(alloc, body)?;
    let whole = Statement::While {
        at,
        open,
        condition: Box::into_inner(condition),
        body,
    };
    Ok((whole, rest))
}

#[cycle(statement)]
fn do_behind(
    alloc: Global,
    at: u32,
    tokens: &[Spanned],
    level: Level,
) -> Result<(Statement, &[Spanned]), Fault>
    ensures read { IfOk result (λ x. ReadsBehind (word keys.Do at) level (seen tokens.now) (statement_of x.0) (seen x.1.now)) }
    ensures fails { IfErr result (Fails (do_goals at) level (seen tokens.now)) }
{
    let (body, rest) = statement(alloc, tokens, level)?;
    let body = Box::new(alloc, body)?;
    let Some((while_at, after)) = take_key(rest, Key::While) else {
        return Err(not_here(rest));
    };
    let (open, condition, rest) = condition(alloc, after, level)?;
    let rest = want_mark(rest, Mark::Semicolon)?;
    let whole = Statement::Do {
        at,
        body,
        while_at,
        open,
        condition: Box::into_inner(condition),
    };
    Ok((whole, rest))
}

#[cycle(statement)]
fn for_behind(
    alloc: Global,
    at: u32,
    tokens: &[Spanned],
    level: Level,
) -> Result<(Statement, &[Spanned]), Fault>
    ensures read { IfOk result (λ x. ReadsBehind (word keys.For at) level (seen tokens.now) (statement_of x.0) (seen x.1.now)) }
    ensures fails { IfErr result (Fails (for_goals at level) level (seen tokens.now)) }
{
    let Some((open, inner)) = take_mark(tokens, Mark::OpenParenthesis) else {
        return Err(not_here(tokens));
    };
    let up = open_levels(level, 1, tokens)?;
    let (start, rest) = part_until(alloc, inner, up, Mark::Semicolon)?;
    let start = Box::new(alloc, start)?;
    let (condition, rest) = part_until(alloc, rest, up, Mark::Semicolon)?;
    let condition = Box::new(alloc, condition)?;
    let (step, rest) = part_until(alloc, rest, up, Mark::CloseParenthesis)?;
    let step = Box::new(alloc, step)?;
    let (body, rest) = statement(alloc, rest, level)?;
    let body = Box::new(alloc, body)?;
    let whole = Statement::For {
        at,
        open,
        start: Box::into_inner(start),
        condition: Box::into_inner(condition),
        step: Box::into_inner(step),
        body,
    };
    Ok((whole, rest))
}

#[cycle(statement)]
fn item(alloc: Global, tokens: &[Spanned], level: Level) -> Result<(Item, &[Spanned]), Fault>
    requires { IsNot (token.Mark marks.CloseBrace) (seen tokens.now) }
    ensures read { IfOk result (λ x. ReadsItems level (seen tokens.now) (item_onto x.0 no_items) (seen x.1.now)) }
    ensures fails { IfErr result (Fails (Want Items) level (seen tokens.now)) }
    ensures leads { IfOk result (λ x. ItemsLead level (seen tokens.now) (seen x.1.now)) }
{
    if begins_local(tokens) {
        let (local, rest) = local(alloc, tokens, level)?;
        return Ok((Item::Local(local), rest));
    }
    let (statement, rest) = statement(alloc, tokens, level)?;
    Ok((Item::Statement(statement), rest))
}

/// What stands in a block, up to its closing brace.
#[cycle(statement)]
pub fn items(
    alloc: Global,
    tokens: &[Spanned],
    level: Level,
) -> Result<(Vec<Item>, &[Spanned]), Fault>
    ensures read { IfOk result (λ x. ReadsItems level (seen tokens.now) (items_of x.0.items) (sign marks.CloseBrace 0 ∷ seen x.1.now)) }
    ensures fails { IfErr result (Fails (Want Items) level (seen tokens.now)) }
{
    let mut list = Vec::new(alloc);
    let mut rest = tokens;
    loop {
        if let Some((_, last)) = take_mark(rest, Mark::CloseBrace) {
            return Ok((list, last));
        }
        let (next, behind) = item(alloc, rest, level)?;
        list.push(next)?;
        rest = behind;
    }
}
