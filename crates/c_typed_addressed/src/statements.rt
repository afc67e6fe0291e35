// Where the statements of a function apply `&` to its variables.
ghost use Rattle.std.specs.Prelude.{◌≡◌, OnOk, IfOk};
ghost use Rattle.c_phrases.specs.Units.{no_items};
ghost use Rattle.c_phrases.specs.UnitShapes.{declarator_of, declarators_of, initialised_of, length_of, item_onto, items_of, statement_of};
ghost use Rattle.c_phrases.specs.UnitShapes.{param_of, param_list};
ghost use Rattle.c_typed_expressions.specs.Phrases.{init_in, brackets_in};
ghost use Rattle.c_typed_addressed.specs.Statements.{in_length, in_init, in_declarator, in_declarators, in_statement, in_item, in_items};
ghost use Rattle.c_typed_addressed.specs.Statements.{in_parameter, in_parameters, addressed, next_variable, entered, scoped};
ghost use Rattle.c_typed_addressed.specs.Views.{marks, searched};

use crate::expressions::{expression, expressions, maybe};
use crate::search::{Addressed, Search};
use c_phrases::operator::Storage;
use c_phrases::tree::{Declarator, Initialised, Initialiser, Item, Length, Param, Statement};
use c_types::Variable;
use std::alloc::{AllocError, Global};

fn length(given: &Option<Length>, state: &mut Search)
    ensures { searched state.new ≡ in_length (brackets_in (length_of given.now)) (searched state.old) }
{
    if let Some(given) = given {
        maybe(&state.blocks, &given.value, &mut state.found);
    }
}

fn initialiser(given: &Option<Initialised>, state: &mut Search)
    ensures { searched state.new ≡ in_init (init_in (initialised_of given.now)) (searched state.old) }
{
    if let Some(given) = given {
        match &given.with {
            Initialiser::Value(e) => expression(&state.blocks, e, &mut state.found),
            Initialiser::List { items, .. } => {
                expressions(&state.blocks, items, &mut state.found);
            }
        }
    }
}

// The variable of a declarator: the next automatic local, or a static one, whose number doesn't matter.
fn variable(storage: Storage, found: &mut Addressed) -> Result<Variable, AllocError>
    ensures { IfOk result (λ v. (v, marks found.new) ≡ next_variable storage (marks found.old)) }
{
    match storage {
        Storage::Static { .. } => Ok(Variable::Static(0)),
        Storage::Automatic | Storage::Register { .. } => {
            let number = found.locals.len();
            if number > 0xffff_ffff {
                return Err(AllocError);
            }
            found.locals.push(false)?;
            Ok(Variable::Automatic(number as u32))
        }
    }
}

fn declarator(
    alloc: Global,
    storage: Storage,
    d: &Declarator,
    state: &mut Search,
) -> Result<(), AllocError>
    ensures { OnOk result (searched state.new ≡ in_declarator storage (declarator_of d.now) (searched state.old)) }
{
    length(&d.length, state);
    let variable = variable(storage, &mut state.found)?;
    state.declare(alloc, &d.name, variable)?;
    initialiser(&d.initialiser, state);
    Ok(())
}

fn declarators(
    alloc: Global,
    storage: Storage,
    ds: &[Declarator],
    state: &mut Search,
) -> Result<(), AllocError>
    ensures { OnOk result (searched state.new ≡ in_declarators storage (declarators_of ds.now) (searched state.old)) }
{
    for d in ds {
        declarator(alloc, storage, d, state)?;
    }
    Ok(())
}

#[cycle(blocks)]
fn statement(alloc: Global, s: &Statement, state: &mut Search) -> Result<(), AllocError>
    ensures { OnOk result (searched state.new ≡ in_statement (statement_of s.now) (searched state.old)) }
{
    match s {
        Statement::Block(row) => block(alloc, row, state),
        Statement::Empty | Statement::Break { .. } | Statement::Continue { .. } => Ok(()),
        Statement::Expr(e) => {
            expression(&state.blocks, e, &mut state.found);
            Ok(())
        }
        Statement::Return { value, .. } => {
            maybe(&state.blocks, value, &mut state.found);
            Ok(())
        }
        Statement::If {
            condition,
            then,
            ..
        } => {
            expression(&state.blocks, condition, &mut state.found);
            statement(alloc, then, state)
        }
        Statement::IfElse {
            condition,
            then,
            otherwise,
            ..
        } => {
            expression(&state.blocks, condition, &mut state.found);
            statement(alloc, then, state)?;
            statement(alloc, otherwise, state)
        }
        Statement::While {
            condition,
            body,
            ..
        } => {
            expression(&state.blocks, condition, &mut state.found);
            statement(alloc, body, state)
        }
        Statement::Do {
            body,
            condition,
            ..
        } => {
            statement(alloc, body, state)?;
            expression(&state.blocks, condition, &mut state.found);
            Ok(())
        }
        Statement::For {
            start,
            condition,
            step,
            body,
            ..
        } => {
            maybe(&state.blocks, start, &mut state.found);
            maybe(&state.blocks, condition, &mut state.found);
            maybe(&state.blocks, step, &mut state.found);
            statement(alloc, body, state)
        }
    }
}

// The items of a block that has a scope of its own.
#[cycle(blocks)]
fn block(alloc: Global, row: &[Item], state: &mut Search) -> Result<(), AllocError>
    ensures { OnOk result (searched state.new ≡ scoped (in_items (items_of row.now) (entered (searched state.old)))) }
{
    state.blocks.enter(alloc)?;
    items(alloc, row, state)?;
    state.blocks.leave();
    Ok(())
}

#[cycle(blocks)]
fn one_item(alloc: Global, i: &Item, state: &mut Search) -> Result<(), AllocError>
    ensures { OnOk result (searched state.new ≡ in_item (item_onto i.now no_items) (searched state.old)) }
{
    match i {
        Item::Local(l) => declarators(alloc, l.storage, &l.declarators, state),
        Item::Statement(s) => statement(alloc, s, state),
    }
}

#[cycle(blocks)]
fn items(alloc: Global, row: &[Item], state: &mut Search) -> Result<(), AllocError>
    ensures { OnOk result (searched state.new ≡ in_items (items_of row.now) (searched state.old)) }
{
    for i in row {
        one_item(alloc, i, state)?;
    }
    Ok(())
}

fn parameter(alloc: Global, p: &Param, state: &mut Search) -> Result<(), AllocError>
    ensures { OnOk result (searched state.new ≡ in_parameter (param_of p.now) (searched state.old)) }
{
    length(&p.length, state);
    let number = state.found.parameters.len();
    if number > 0xffff_ffff {
        return Err(AllocError);
    }
    state.found.parameters.push(false)?;
    match &p.name {
        None => Ok(()),
        Some(name) => state.declare(alloc, &name.name, Variable::Parameter(number as u32)),
    }
}

fn parameters(alloc: Global, ps: &[Param], state: &mut Search) -> Result<(), AllocError>
    ensures { OnOk result (searched state.new ≡ in_parameters (param_list ps.now) (searched state.old)) }
{
    for p in ps {
        parameter(alloc, p, state)?;
    }
    Ok(())
}

/// To which of its parameters and automatic locals a function applies `&`, evaluated or not, also in parentheses.
#[tactic(auto, unfolding(crate::specs::Statements::addressed))]
pub fn addressed(alloc: Global, params: &[Param], body: &[Item]) -> Result<Addressed, AllocError>
    ensures { IfOk result (λ found. marks found ≡ addressed (param_list params.now) (items_of body.now)) }
{
    let mut state = Search::new(alloc);
    parameters(alloc, params, &mut state)?;
    items(alloc, body, &mut state)?;
    Ok(state.found)
}
