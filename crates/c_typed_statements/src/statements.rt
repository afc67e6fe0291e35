// The types of statements.
ghost use Rattle.std.specs.Prelude.{◌≡◌};
ghost use Rattle.c_types.specs.Typed.{expression_of};
ghost use Rattle.c_typed_scope.specs.Answers.{Turns};
ghost use Rattle.c_phrases.specs.Shapes.{exp};
ghost use Rattle.c_phrases.specs.Units.{no_items};
ghost use Rattle.c_phrases.specs.UnitShapes.{part, item_onto, items_of, statement_of};
ghost use Rattle.c_typed_objects.specs.Views.{state};
ghost use Rattle.c_program.specs.Statements.{act, acts, optional_expression};
ghost use Rattle.c_typed_expressions.specs.Functions.{by_functions};
ghost use Rattle.c_typed_definition.specs.State.{State};
ghost use Rattle.c_typed_statements.specs.Views.{scoped};
ghost use Rattle.c_typed_definition.specs.Statements.{entered, jump, type_full, type_condition, type_maybe, type_maybe_condition};
ghost use Rattle.c_typed_definition.specs.Statements.{type_return, type_statement, type_item, type_items};

use c_phrases::tree::{Expr, Item, Statement};
use c_program::Action;
use c_typed_expressions::phrase::first;
use c_typed_expressions::{Functions, expression};
use c_typed_objects::{Environment, locals};
use c_typed_operators::rules::{condition, give};
use c_types::{CType, Expression, TypeFault, TypeKind};
use std::alloc::Global;

#[tactic(auto, unfolding(c_typed_definition::specs::Statements::type_full))]
fn full(
    alloc: Global,
    functions: &Functions,
    e: &Expr,
    environment: &mut Environment,
) -> Result<Expression, TypeFault>
    ensures { Turns (λ t. expression_of t) result (state environment.new) (by_functions functions.now type_full
        (exp e.now) (state environment.old)) }
{
    expression(
        alloc,
        functions,
        &environment.blocks,
        e,
        &mut environment.layout,
    )
}

#[tactic(auto, unfolding(c_typed_definition::specs::Statements::type_condition))]
fn tested(
    alloc: Global,
    functions: &Functions,
    e: &Expr,
    environment: &mut Environment,
) -> Result<Expression, TypeFault>
    ensures { Turns (λ t. expression_of t) result (state environment.new) (by_functions functions.now type_condition
        (exp e.now) (state environment.old)) }
{
    let x = full(alloc, functions, e, environment)?;
    condition(first(e), x)
}

fn maybe_full(
    alloc: Global,
    functions: &Functions,
    e: &Option<Expr>,
    environment: &mut Environment,
) -> Result<Option<Expression>, TypeFault>
    ensures { Turns (λ t. optional_expression t) result (state environment.new) (by_functions functions.now type_maybe
        (part e.now) (state environment.old)) }
{
    match e {
        None => Ok(None),
        Some(e) => Ok(Some(full(alloc, functions, e, environment)?)),
    }
}

fn maybe_tested(
    alloc: Global,
    functions: &Functions,
    e: &Option<Expr>,
    environment: &mut Environment,
) -> Result<Option<Expression>, TypeFault>
    ensures { Turns (λ t. optional_expression t) result (state environment.new) (by_functions functions.now type_maybe_condition
        (part e.now) (state environment.old)) }
{
    match e {
        None => Ok(None),
        Some(e) => Ok(Some(tested(alloc, functions, e, environment)?)),
    }
}

fn returned(
    alloc: Global,
    functions: &Functions,
    gives: CType,
    e: &Option<Expr>,
    environment: &mut Environment,
) -> Result<Action, TypeFault>
    ensures { Turns (λ a. act a) result (state environment.new) (by_functions functions.now type_return
        gives (part e.now) (state environment.old)) }
{
    match e {
        None => Ok(Action::Return(None)),
        Some(e) => {
            let x = full(alloc, functions, e, environment)?;
            let x = give(gives, first(e), Box::new(alloc, x)?)?;
            Ok(Action::Return(Some(x)))
        }
    }
}

fn jump(looping: bool, at: u32, action: Action) -> Result<Action, TypeFault>
    ensures { (s : State) → Turns (λ a. act a) result s (jump looping at (act action) s) }
{
    if looping {
        Ok(action)
    } else {
        Err(TypeFault::At {
            place: at,
            kind: TypeKind::BadJump,
        })
    }
}

/// A statement of a function whose result has the type `gives`; `looping` where a loop is around it.
#[cycle(blocks)]
pub fn statement(
    alloc: Global,
    functions: &Functions,
    gives: CType,
    looping: bool,
    s: &Statement,
    environment: &mut Environment,
) -> Result<Action, TypeFault>
    ensures { Turns (λ a. act a) result (state environment.new) (by_functions functions.now type_statement
        gives looping (statement_of s.now) (state environment.old)) }
{
    match s {
        Statement::Block(row) => {
            let actions = block(alloc, functions, gives, looping, row, environment)?;
            Ok(Action::Block(actions))
        }
        Statement::Empty => Ok(Action::Block(Vec::new(alloc))),
        Statement::Expr(e) => Ok(Action::Evaluate(full(alloc, functions, e, environment)?)),
        Statement::Break { at } => jump(looping, *at, Action::Break),
        Statement::Continue { at } => jump(looping, *at, Action::Continue),
        Statement::Return { value, .. } => returned(alloc, functions, gives, value, environment),
        Statement::If {
            condition,
            then,
            ..
        } => {
            let c = tested(alloc, functions, condition, environment)?;
            let a = statement(alloc, functions, gives, looping, then, environment)?;
            Ok(Action::If(c, Box::new(alloc, a)?))
        }
        Statement::IfElse {
            condition,
            then,
            otherwise,
            ..
        } => {
            let c = tested(alloc, functions, condition, environment)?;
            let a = statement(alloc, functions, gives, looping, then, environment)?;
            let b = statement(alloc, functions, gives, looping, otherwise, environment)?;
            Ok(Action::IfElse(c, Box::new(alloc, a)?, Box::new(alloc, b)?))
        }
        Statement::While {
            condition,
            body,
            ..
        } => {
            let c = tested(alloc, functions, condition, environment)?;
            let a = statement(alloc, functions, gives, true, body, environment)?;
            Ok(Action::While(c, Box::new(alloc, a)?))
        }
        Statement::Do {
            body,
            condition,
            ..
        } => {
            let a = statement(alloc, functions, gives, true, body, environment)?;
            let c = tested(alloc, functions, condition, environment)?;
            Ok(Action::Do(Box::new(alloc, a)?, c))
        }
        Statement::For {
            start,
            condition,
            step,
            body,
            ..
        } => {
            let i = maybe_full(alloc, functions, start, environment)?;
            let c = maybe_tested(alloc, functions, condition, environment)?;
            let e = maybe_full(alloc, functions, step, environment)?;
            let a = statement(alloc, functions, gives, true, body, environment)?;
            Ok(Action::For(i, c, e, Box::new(alloc, a)?))
        }
    }
}

// The items of a block that has a scope of its own.
#[cycle(blocks)]
fn block(
    alloc: Global,
    functions: &Functions,
    gives: CType,
    looping: bool,
    row: &[Item],
    environment: &mut Environment,
) -> Result<Vec<Action>, TypeFault>
    ensures { Turns (λ v. acts v.items) result (state environment.new) (scoped
        (by_functions functions.now type_items gives looping (items_of row.now)
        (entered (state environment.old)))) }
{
    environment.blocks.enter(alloc)?;
    let actions = items(alloc, functions, gives, looping, row, environment)?;
    environment.blocks.leave();
    Ok(actions)
}

#[cycle(blocks)]
fn one_item(
    alloc: Global,
    functions: &Functions,
    gives: CType,
    looping: bool,
    i: &Item,
    environment: &mut Environment,
) -> Result<Action, TypeFault>
    ensures { Turns (λ a. act a) result (state environment.new) (by_functions functions.now type_item
        gives looping (item_onto i.now no_items) (state environment.old)) }
{
    match i {
        Item::Local(l) => Ok(Action::Declare(locals(
            alloc,
            functions,
            l.storage,
            l.spec,
            &l.declarators,
            environment,
        )?)),
        Item::Statement(s) => statement(alloc, functions, gives, looping, s, environment),
    }
}

/// The declarations and statements of a block, one after another.
#[cycle(blocks)]
pub fn items(
    alloc: Global,
    functions: &Functions,
    gives: CType,
    looping: bool,
    row: &[Item],
    environment: &mut Environment,
) -> Result<Vec<Action>, TypeFault>
    ensures { Turns (λ v. acts v.items) result (state environment.new) (by_functions functions.now type_items
        gives looping (items_of row.now) (state environment.old)) }
{
    let mut actions = Vec::new(alloc);
    for i in row {
        let a = one_item(alloc, functions, gives, looping, i, environment)?;
        actions.push(a)?;
    }
    Ok(actions)
}
