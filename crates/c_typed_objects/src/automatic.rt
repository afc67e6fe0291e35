// The declarations of automatic variables.
ghost use Rattle.std.specs.Prelude.{◌≡◌, ◌≤◌, ◌<◌, ◌+◌, ◌*◌, ◌^◌, ◌++◌, length, map, true, None, MatchOption, OnOk};
ghost use Rattle.c_phrases.specs.Shapes.{exp, exp_list};
ghost use Rattle.c_phrases.specs.UnitShapes.{declarator_of, initialised_of, part};
ghost use Rattle.c_types.specs.Types.{size_of, is_scalar};
ghost use Rattle.c_program.specs.Statements.{declaration};
ghost use Rattle.c_typed_scope.specs.Answers.{OnlyTurns, Turns};
ghost use Rattle.c_typed_scope.specs.Scopes.{find};
ghost use Rattle.c_typed_expressions.specs.Functions.{by_functions};
ghost use Rattle.c_typed_expressions.specs.Phrases.{init_in};
ghost use Rattle.c_typed_definition.specs.Forms.{given_count};
ghost use Rattle.c_typed_expressions.specs.Calls.{count};
ghost use Rattle.c_types.specs.Typed.{expression_of};
ghost use Rattle.c_typed_objects.specs.Views.{option_now};
ghost use Rattle.c_typed_definition.specs.Automatics.{type_value, begun, type_store, memory_begun, type_stores, array_begun, filled_array};
ghost use Rattle.c_typed_definition.specs.Automatics.{automatic_length, automatic_array, automatic_variable, type_automatic, text_stored, zeros};
ghost use Rattle.c_typed_definition.specs.Automatics.{memory_array, memory_variable};
ghost use Rattle.c_typed_definition.specs.Rooms.{offset_in};
ghost use Rattle.c_typed_definition.specs.State.{with_local};
ghost use Rattle.c_typed_objects.specs.Views.{state};

use crate::environment::{Environment, declare};
use crate::form::{check_automatic, given_count, own_length, text_of};
use crate::initialiser::array_length;
use crate::objects::array_entry;
use c_phrases::operator::Spec;
use c_phrases::tree::{Declarator, Expr, Initialised, Initialiser};
use c_program::Declaration;
use c_typed_expressions::phrase::{first, written};
use c_typed_expressions::{Functions, expression};
use c_typed_operators::rules::give;
use c_typed_scope::Entry;
use c_types::constant::convert;
use c_types::{CType, Expression, TypeFault, TypeKind, Variable};
use std::alloc::{AllocError, Global};

// A value that is converted to a type.
fn value(
    alloc: Global,
    functions: &Functions,
    of: CType,
    e: &Expr,
    environment: &mut Environment,
) -> Result<Expression, TypeFault>
    ensures { Turns (λ t. expression_of t) result (state environment.new)
        (by_functions functions.now type_value of (exp e.now) (state environment.old)) }
{
    let x = expression(
        alloc,
        functions,
        &environment.blocks,
        e,
        &mut environment.layout,
    )?;
    give(of, first(e), Box::new(alloc, x)?)
}

// The value that an automatic local begins with.
fn begin(
    alloc: Global,
    functions: &Functions,
    of: CType,
    number: u32,
    given: &Option<Initialised>,
    done: &mut Vec<Declaration>,
    environment: &mut Environment,
) -> Result<(), TypeFault>
    ensures { OnlyTurns result (map declaration done.new.items, state environment.new) (by_functions functions.now begun
        of number (init_in (initialised_of given.now)) (map declaration done.old.items) (state environment.old)) }
{
    let first = match given {
        None => Declaration::Clear(number),
        Some(given) => match &given.with {
            Initialiser::List { .. } => Declaration::Clear(number),
            Initialiser::Value(e) => Declaration::Begin(
                number,
                value(alloc, functions, of, e, environment)?,
            ),
        },
    };
    done.push(first)?;
    Ok(())
}

// A value that is stored in the block.
fn store(
    alloc: Global,
    functions: &Functions,
    of: CType,
    offset: u32,
    e: &Expr,
    done: &mut Vec<Declaration>,
    environment: &mut Environment,
) -> Result<(), TypeFault>
    ensures { OnlyTurns result (map declaration done.new.items, state environment.new) (by_functions functions.now type_store
        of offset (exp e.now) (map declaration done.old.items) (state environment.old)) }
{
    let x = value(alloc, functions, of, e, environment)?;
    done.push(Declaration::Store(of, offset, x))?;
    Ok(())
}

// A memory local is 0, and then becomes its value.
fn begin_memory(
    alloc: Global,
    functions: &Functions,
    of: CType,
    offset: u32,
    given: &Option<Initialised>,
    done: &mut Vec<Declaration>,
    environment: &mut Environment,
) -> Result<(), TypeFault>
    ensures { OnlyTurns result (map declaration done.new.items, state environment.new) (by_functions functions.now memory_begun
        of offset (init_in (initialised_of given.now)) (map declaration done.old.items) (state environment.old)) }
{
    done.push(Declaration::Store(of, offset, Expression::Number(0)))?;
    if let Some(given) = given {
        if let Initialiser::Value(e) = &given.with {
            store(alloc, functions, of, offset, e, done, environment)?;
        }
    }
    Ok(())
}

// The elements of an array become the values of a list.
fn store_list(
    alloc: Global,
    functions: &Functions,
    of: CType,
    offset: u32,
    es: &[Expr],
    done: &mut Vec<Declaration>,
    environment: &mut Environment,
) -> Result<(), TypeFault>
    requires near { offset + count (exp_list es.now) * size_of of < 2 ^ 32 }
    ensures { OnlyTurns result (map declaration done.new.items, state environment.new) (by_functions functions.now type_stores
        of offset (exp_list es.now) (map declaration done.old.items) (state environment.old)) }
{
    let mut next = offset;
    for e in es {
        store(alloc, functions, of, next, e, done, environment)?;
        next += of.size();
    }
    Ok(())
}

// An array becomes the bytes of a string literal.
fn store_text(
    of: CType,
    offset: u32,
    text: Option<&[u8]>,
    done: &mut Vec<Declaration>,
) -> Result<(), AllocError>
    requires near { MatchOption text (Unit {0}) (λ bytes. offset + length bytes.now < 2 ^ 32) }
    ensures { OnOk result (map declaration done.new.items ≡ map declaration done.old.items ++ text_stored of offset (option_now text.entry)) }
{
    let Some(text) = text else {
        return Ok(());
    };
    let mut next = offset;
    for byte in text {
        let value = Expression::Number(convert(of, u32::from(*byte)));
        done.push(Declaration::Store(of, next, value))?;
        next += 1;
    }
    Ok(())
}

// An array becomes what its initialiser says.
fn begin_array(
    alloc: Global,
    functions: &Functions,
    of: CType,
    offset: u32,
    given: &Option<Initialised>,
    done: &mut Vec<Declaration>,
    environment: &mut Environment,
) -> Result<(), TypeFault>
    requires near { offset + given_count (init_in (initialised_of given.now)) * size_of of < 2 ^ 32 }
    requires scalar { 1 ≤ size_of of }
    ensures { OnlyTurns result (map declaration done.new.items, state environment.new) (by_functions functions.now array_begun
        of offset (init_in (initialised_of given.now)) (map declaration done.old.items) (state environment.old)) }
{
    let Some(given) = given else {
        return Ok(());
    };
    match &given.with {
        Initialiser::List { items, .. } => {
            store_list(alloc, functions, of, offset, items, done, environment)
        }
        Initialiser::Value(e) => Ok(store_text(of, offset, text_of(e), done)?),
    }
}

// Missing elements become 0 behind the others.
fn fill_array(
    alloc: Global,
    functions: &Functions,
    of: CType,
    offset: u32,
    count: u32,
    given: &Option<Initialised>,
    done: &mut Vec<Declaration>,
    environment: &mut Environment,
) -> Result<(), TypeFault>
    requires few { given_count (init_in (initialised_of given.now)) ≤ count }
    requires near { offset + count * size_of of < 2 ^ 32 }
    requires scalar { 1 ≤ size_of of }
    ensures { OnlyTurns result (map declaration done.new.items, state environment.new) (by_functions functions.now filled_array
        of offset count (init_in (initialised_of given.now)) (map declaration done.old.items) (state environment.old)) }
{
    begin_array(alloc, functions, of, offset, given, done, environment)?;
    let there = given_count(given) as u32;
    if there < count {
        done.push(Declaration::Zeros(of, offset + there * of.size(), count - there))?;
    }
    Ok(())
}

// The number of elements; the literals in its brackets are objects.
fn measure(
    alloc: Global,
    functions: &Functions,
    length: &Option<Expr>,
    given: &Option<Initialised>,
    environment: &mut Environment,
) -> Result<u32, TypeFault>
    ensures { Turns (λ n. n) result (state environment.new) (by_functions functions.now automatic_length
        (part length.now) (init_in (initialised_of given.now)) (state environment.old)) }
{
    match length {
        None => own_length(given),
        Some(e) => array_length(
            alloc,
            functions,
            &environment.blocks,
            e,
            &mut environment.layout,
        ),
    }
}

// An array of so many elements lies in the block from here on, and becomes what its initialiser says.
#[tactic(auto, using(crate::proofs::Limits::scalar_some))]
fn block_array(
    alloc: Global,
    functions: &Functions,
    of: CType,
    d: &Declarator,
    count: u32,
    done: &mut Vec<Declaration>,
    environment: &mut Environment,
) -> Result<(), TypeFault>
    requires free { find environment.old.blocks.here d.now.name ≡ None }
    requires scalar { is_scalar of ≡ true }
    requires few { given_count (init_in (initialised_of d.now.initialiser)) ≤ count }
    ensures { OnlyTurns result (map declaration done.new.items, state environment.new) (by_functions functions.now filled_array
        of (offset_in (size_of of) (state environment.old).room) count (init_in (initialised_of d.now.initialiser))
        (map declaration done.old.items) (memory_array of (count * size_of of) (declarator_of d.now) (state environment.old))) }
{
    let size = u64::from(count) * u64::from(of.size());
    if size > 0x7fff_ffff {
        return Err(TypeFault::NoMemory);
    }
    let size = size as u32;
    environment.room.declare()?;
    let offset = environment.room.take(of.size(), size);
    let entry = array_entry(of, Variable::InBlock(offset), size)?;
    declare(alloc, &mut environment.blocks, &d.name, entry)?;
    fill_array(
        alloc,
        functions,
        of,
        offset,
        count,
        &d.initialiser,
        done,
        environment,
    )
}

#[tactic(auto, unfolding(c_typed_definition::specs::Automatics::automatic_array, c_typed_definition::specs::Forms::many))]
fn array(
    alloc: Global,
    functions: &Functions,
    of: CType,
    d: &Declarator,
    length: &Option<Expr>,
    done: &mut Vec<Declaration>,
    environment: &mut Environment,
) -> Result<(), TypeFault>
    requires free { find environment.old.blocks.here d.now.name ≡ None }
    requires scalar { is_scalar of ≡ true }
    ensures { OnlyTurns result (map declaration done.new.items, state environment.new) (by_functions functions.now automatic_array
        of (declarator_of d.now) (part length.now) (map declaration done.old.items) (state environment.old)) }
{
    let count = measure(alloc, functions, length, &d.initialiser, environment)?;
    if (count as usize) < given_count(&d.initialiser) {
        return Err(TypeFault::At {
            place: d.at,
            kind: TypeKind::BadInit,
        });
    }
    block_array(alloc, functions, of, d, count, done, environment)
}

// A memory local lies in the block from here on. It is 0, and then becomes its value.
#[tactic(auto, using(crate::proofs::Limits::scalar_some))]
fn memory_variable(
    alloc: Global,
    functions: &Functions,
    of: CType,
    d: &Declarator,
    done: &mut Vec<Declaration>,
    environment: &mut Environment,
) -> Result<(), TypeFault>
    requires free { find environment.old.blocks.here d.now.name ≡ None }
    requires scalar { is_scalar of ≡ true }
    ensures { OnlyTurns result (map declaration done.new.items, state environment.new) (by_functions functions.now memory_begun
        of (offset_in (size_of of) (state environment.old).room) (init_in (initialised_of d.now.initialiser))
        (map declaration done.old.items) (memory_variable of (declarator_of d.now) (state environment.old))) }
{
    environment.room.declare()?;
    let offset = environment.room.take(of.size(), of.size());
    let entry = Entry::Variable(of, Variable::InBlock(offset));
    declare(alloc, &mut environment.blocks, &d.name, entry)?;
    begin_memory(
        alloc,
        functions,
        of,
        offset,
        &d.initialiser,
        done,
        environment,
    )
}

// A variable that is no memory local.
fn plain_variable(
    alloc: Global,
    functions: &Functions,
    of: CType,
    d: &Declarator,
    done: &mut Vec<Declaration>,
    environment: &mut Environment,
) -> Result<(), TypeFault>
    requires { find environment.old.blocks.here d.now.name ≡ None }
    ensures { OnlyTurns result (map declaration done.new.items, state environment.new) (by_functions functions.now begun
        of (length (state environment.old).locals) (init_in (initialised_of d.now.initialiser)) (map declaration done.old.items)
        (with_local of d.now.name (state environment.old))) }
{
    environment.room.declare()?;
    let number = environment.locals.len();
    if number > 0xffff_ffff {
        return Err(TypeFault::NoMemory);
    }
    let number = number as u32;
    let entry = Entry::Variable(of, Variable::Automatic(number));
    declare(alloc, &mut environment.blocks, &d.name, entry)?;
    environment.locals.push(of)?;
    begin(
        alloc,
        functions,
        of,
        number,
        &d.initialiser,
        done,
        environment,
    )
}

// A variable that is no array: a memory local where `&` is applied to it.
#[tactic(auto, unfolding(c_typed_definition::specs::Automatics::automatic_variable))]
fn variable(
    alloc: Global,
    functions: &Functions,
    in_block: bool,
    of: CType,
    d: &Declarator,
    done: &mut Vec<Declaration>,
    environment: &mut Environment,
) -> Result<(), TypeFault>
    requires free { find environment.old.blocks.here d.now.name ≡ None }
    requires scalar { is_scalar of ≡ true }
    ensures { OnlyTurns result (map declaration done.new.items, state environment.new) (by_functions functions.now automatic_variable
        in_block of (declarator_of d.now) (map declaration done.old.items) (state environment.old)) }
{
    if in_block {
        memory_variable(alloc, functions, of, d, done, environment)
    } else {
        plain_variable(alloc, functions, of, d, done, environment)
    }
}

/// An automatic variable, or one that is declared `register`.
#[tactic(auto, unfolding(c_typed_definition::specs::Automatics::type_automatic), using(crate::proofs::Forms::automatic_facts))]
pub fn automatic(
    alloc: Global,
    functions: &Functions,
    is_register: bool,
    spec: Spec,
    d: &Declarator,
    done: &mut Vec<Declaration>,
    environment: &mut Environment,
) -> Result<(), TypeFault>
    ensures { OnlyTurns result (map declaration done.new.items, state environment.new) (by_functions functions.now type_automatic
        is_register spec (declarator_of d.now) (map declaration done.old.items) (state environment.old)) }
{
    let of = written(spec, &d.stars);
    check_automatic(is_register, of, d, &environment.blocks)?;
    match &d.length {
        None => {
            let in_block = !is_register && environment.room.is_next_addressed();
            variable(alloc, functions, in_block, of, d, done, environment)
        }
        Some(length) => array(alloc, functions, of, d, &length.value, done, environment),
    }
}
