// The objects of variables at file level and of static locals.
ghost use Rattle.std.specs.Prelude.{◌≡◌, ◌≤◌, Ok, None, [], Bool, true, false};
ghost use Rattle.c_types.specs.Types.{size_of, pointer_to, is_scalar};
ghost use Rattle.c_types.specs.Answers.{Gives};
ghost use Rattle.c_phrases.specs.UnitShapes.{declarator_of, initialised_of, part};
ghost use Rattle.c_typed_scope.specs.Answers.{Turns, OnlyTurns};
ghost use Rattle.c_typed_scope.specs.Scopes.{find};
ghost use Rattle.c_typed_scope.specs.Views.{scope, area, filled_so_far};
ghost use Rattle.c_typed_scope.specs.Layout.{placed};
ghost use Rattle.c_typed_expressions.specs.Functions.{by_functions};
ghost use Rattle.c_typed_expressions.specs.Phrases.{init_in};
ghost use Rattle.c_typed_objects.specs.Views.{state};
ghost use Rattle.c_typed_definition.specs.State.{variable_of, array_entry, label_of, counted_static, laid};
ghost use Rattle.c_typed_definition.specs.Declarations.{length_in, literals_in, contents_of, plain_object};
ghost use Rattle.c_typed_definition.specs.Declarations.{object_with, counted_array, array_object, type_object};

use crate::environment::{Environment, declare};
use crate::form::{check_form, given_count, own_length, text_of};
use crate::initialiser::{array_length, element, elements};
use c_phrases::operator::Spec;
use c_phrases::tree::{Declarator, Expr, Initialised, Initialiser, Length};
use c_typed_expressions::phrase::written;
use c_typed_expressions::{Functions, expression};
use c_typed_scope::contents::fill;
use c_typed_scope::data::{lay, static_label, variable_label};
use c_typed_scope::{Blocks, Contents, Data, Entry};
use c_types::{CType, TypeFault, TypeKind, Variable};
use gg_base::{Bytes, Name};
use std::alloc::Global;

// The number of elements. While it is measured, its literals take no room: they lie behind the array.
fn measure(
    alloc: Global,
    functions: &Functions,
    blocks: &Blocks,
    length: &Option<Expr>,
    given: &Option<Initialised>,
    layout: &mut Data,
) -> Result<u32, TypeFault>
    ensures { Turns (λ n. n) result (area layout.new) (by_functions functions.now length_in
        (part length.now) (init_in (initialised_of given.now)) (scope blocks.now) (area layout.old)) }
{
    match length {
        None => own_length(given),
        Some(e) => {
            layout.measuring = true;
            let count = array_length(alloc, functions, blocks, e, layout)?;
            layout.measuring = false;
            Ok(count)
        }
    }
}

// The literals of a length.
fn lay_literals(
    alloc: Global,
    functions: &Functions,
    blocks: &Blocks,
    length: &Option<Expr>,
    layout: &mut Data,
) -> Result<(), TypeFault>
    ensures { OnlyTurns result (area layout.new) (by_functions functions.now literals_in
        (part length.now) (scope blocks.now) (area layout.old)) }
{
    if let Some(e) = length {
        let _ = expression(alloc, functions, blocks, e, layout)?;
    }
    Ok(())
}

// A variable's object, and the count of static locals.
#[tactic(auto, unfolding(c_typed_definition::specs::State::laid))]
fn lay_variable(
    alloc: Global,
    is_static: bool,
    at: u32,
    name: &Name,
    align: u32,
    size: u32,
    layout: &mut Data,
) -> Result<u32, TypeFault>
    requires { (1 ≤ align) × (align ≤ 4) }
    ensures { Turns (λ n. n) result (area layout.new) (laid is_static at name.now align size (area layout.old)) }
{
    let bytes = Bytes::from_vec(Vec::new(alloc));
    if is_static {
        let label = static_label(alloc, layout.statics)?;
        let number = lay(alloc, layout, at, label, align, size, bytes)?;
        if layout.statics == u32::MAX {
            return Err(TypeFault::NoMemory);
        }
        layout.statics += 1;
        Ok(number)
    } else {
        let label = variable_label(alloc, name)?;
        lay(alloc, layout, at, label, align, size, bytes)
    }
}

fn variable_of(is_static: bool, object: u32) -> Variable
    ensures { result ≡ variable_of is_static object }
{
    if is_static {
        Variable::Static(object)
    } else {
        Variable::Global(object)
    }
}

// What an object holds at first.
fn contents(
    alloc: Global,
    functions: &Functions,
    blocks: &Blocks,
    of: CType,
    is_array: bool,
    given: &Option<Initialised>,
    layout: &mut Data,
) -> Result<Contents, TypeFault>
    ensures { Turns (λ c. filled_so_far c) result (area layout.new) (by_functions functions.now contents_of
        of is_array (init_in (initialised_of given.now)) (scope blocks.now) (area layout.old)) }
{
    let mut contents = Contents::new(alloc);
    let Some(given) = given else {
        return Ok(contents);
    };
    match &given.with {
        Initialiser::List { items, .. } => {
            elements(alloc, functions, blocks, of, items, layout, &mut contents)?;
        }
        Initialiser::Value(e) => {
            if !is_array {
                element(alloc, functions, blocks, of, e, layout, &mut contents)?;
            } else if let Some(text) = text_of(e) {
                contents.bytes.extend_from_slice(text)?;
            }
        }
    }
    Ok(contents)
}

// The variable of an object is in scope, and then the object gets what it holds at first.
#[tactic(auto, unfolding(c_typed_definition::specs::Declarations::object_with))]
fn declare_object(
    alloc: Global,
    functions: &Functions,
    of: CType,
    is_array: bool,
    d: &Declarator,
    entry: Entry,
    number: u32,
    size: u32,
    environment: &mut Environment,
) -> Result<u32, TypeFault>
    requires { find environment.old.blocks.here d.now.name ≡ None }
    ensures { Turns (λ n. n) result (state environment.new) (by_functions functions.now object_with
        number size of is_array (declarator_of d.now) entry (state environment.old)) }
{
    declare(alloc, &mut environment.blocks, &d.name, entry)?;
    let layout = &mut environment.layout;
    let contents = contents(
        alloc,
        functions,
        &environment.blocks,
        of,
        is_array,
        &d.initialiser,
        layout,
    )?;
    fill(layout, number, size, contents)?;
    Ok(number)
}

#[tactic(auto, unfolding(c_typed_definition::specs::Declarations::plain_object))]
fn plain_object(
    alloc: Global,
    functions: &Functions,
    is_static: bool,
    of: CType,
    d: &Declarator,
    environment: &mut Environment,
) -> Result<u32, TypeFault>
    requires free { find environment.old.blocks.here d.now.name ≡ None }
    requires scalar { is_scalar of ≡ true }
    ensures { Turns (λ n. n) result (state environment.new) (by_functions functions.now plain_object
        is_static of (declarator_of d.now) (state environment.old)) }
{
    let size = of.size();
    let number = lay_variable(
        alloc,
        is_static,
        d.at,
        &d.name,
        size,
        size,
        &mut environment.layout,
    )?;
    let entry = Entry::Variable(of, variable_of(is_static, number));
    declare_object(
        alloc,
        functions,
        of,
        false,
        d,
        entry,
        number,
        size,
        environment,
    )
}

/// The entry of an array holds the type of its first element's address.
#[tactic(auto, unfolding(c_types::specs::Types::pointer_to))]
pub(crate) fn array_entry(of: CType, variable: Variable, size: u32) -> Result<Entry, TypeFault>
    ensures { Gives (λ e. e) result (Ok (array_entry (pointer_to of) variable size)) }
{
    match of {
        CType::Void => Ok(Entry::Array(CType::Void, variable, size)),
        _ => match of.pointer() {
            None => Err(TypeFault::NoMemory),
            Some(pointer) => Ok(Entry::Array(pointer, variable, size)),
        },
    }
}

// The object of an array of this many elements.
#[tactic(auto, unfolding(c_typed_definition::specs::Declarations::counted_array), using(crate::proofs::Limits::too_large))]
fn counted_array(
    alloc: Global,
    functions: &Functions,
    is_static: bool,
    of: CType,
    d: &Declarator,
    length: &Option<Expr>,
    count: u32,
    environment: &mut Environment,
) -> Result<u32, TypeFault>
    requires free { find environment.old.blocks.here d.now.name ≡ None }
    requires scalar { is_scalar of ≡ true }
    ensures { Turns (λ n. n) result (state environment.new) (by_functions functions.now counted_array
        is_static of (declarator_of d.now) (part length.now) count (state environment.old)) }
{
    let size = u64::from(count) * u64::from(of.size());
    if size > 0xffff_ffff {
        return Err(TypeFault::At {
            place: d.at,
            kind: TypeKind::DataFull,
        });
    }
    let size = size as u32;
    let number = lay_variable(
        alloc,
        is_static,
        d.at,
        &d.name,
        of.size(),
        size,
        &mut environment.layout,
    )?;
    lay_literals(
        alloc,
        functions,
        &environment.blocks,
        length,
        &mut environment.layout,
    )?;
    let entry = array_entry(of, variable_of(is_static, number), size)?;
    declare_object(
        alloc,
        functions,
        of,
        true,
        d,
        entry,
        number,
        size,
        environment,
    )
}

#[tactic(auto, unfolding(c_typed_definition::specs::Declarations::array_object, c_typed_definition::specs::Forms::many))]
fn array_object(
    alloc: Global,
    functions: &Functions,
    is_static: bool,
    of: CType,
    d: &Declarator,
    length: &Option<Expr>,
    environment: &mut Environment,
) -> Result<u32, TypeFault>
    requires free { find environment.old.blocks.here d.now.name ≡ None }
    requires scalar { is_scalar of ≡ true }
    ensures { Turns (λ n. n) result (state environment.new) (by_functions functions.now array_object
        is_static of (declarator_of d.now) (part length.now) (state environment.old)) }
{
    let layout = &mut environment.layout;
    let count = measure(
        alloc,
        functions,
        &environment.blocks,
        length,
        &d.initialiser,
        layout,
    )?;
    if (count as usize) < given_count(&d.initialiser) {
        return Err(TypeFault::At {
            place: d.at,
            kind: TypeKind::BadInit,
        });
    }
    counted_array(
        alloc,
        functions,
        is_static,
        of,
        d,
        length,
        count,
        environment,
    )
}

/// A global variable or a static local: the number of its object, and the variable in scope.
#[tactic(auto, unfolding(c_typed_definition::specs::Declarations::type_object), using(crate::proofs::Forms::form_facts))]
pub fn object(
    alloc: Global,
    functions: &Functions,
    is_static: bool,
    spec: Spec,
    d: &Declarator,
    environment: &mut Environment,
) -> Result<u32, TypeFault>
    ensures { Turns (λ n. n) result (state environment.new) (by_functions functions.now type_object
        is_static spec (declarator_of d.now) (state environment.old)) }
{
    let of = written(spec, &d.stars);
    check_form(of, d, &environment.blocks)?;
    match &d.length {
        None => plain_object(alloc, functions, is_static, of, d, environment),
        Some(length) => array_object(
            alloc,
            functions,
            is_static,
            of,
            d,
            &length.value,
            environment,
        ),
    }
}
