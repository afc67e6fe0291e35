// The declarations and definitions of functions.
ghost use Rattle.std.specs.Prelude.{◌≡◌, ◌+◌, Ok, None, Some, is_some, IfOk, map, true};
ghost use Rattle.c_phrases.specs.UnitShapes.{items_of, length_of, param_of, param_list};
ghost use Rattle.c_types.specs.Answers.{Gives};
ghost use Rattle.c_types.specs.Types.{is_scalar};
ghost use Rattle.c_program.specs.Statements.{acts, declaration};
ghost use Rattle.c_program.specs.Programs.{routine};
ghost use Rattle.c_typed_scope.specs.Answers.{OnlyTurns};
ghost use Rattle.c_typed_scope.specs.Scopes.{find};
ghost use Rattle.c_typed_scope.specs.Views.{scope, area};
ghost use Rattle.c_typed_expressions.specs.Functions.{by_functions};
ghost use Rattle.c_typed_expressions.specs.Phrases.{brackets_in};
ghost use Rattle.c_typed_expressions.specs.Expressions.{integer_of};
ghost use Rattle.c_typed_objects.specs.Views.{state};
ghost use Rattle.c_typed_definition.specs.Headings.{earlier_by, is_below, head_of, word_of, parameter_form};
ghost use Rattle.c_typed_definition.specs.Headings.{agrees, with_declared, with_parameter, head_by};
ghost use Rattle.c_typed_definition.specs.Bodies.{body_of, with_stores, marks_in, end_in, entered_function, left_function};
ghost use Rattle.c_typed_addressed.specs.Views.{marks};
ghost use Rattle.c_typed_definition.specs.Texts.{parameter_length, type_parameter, type_parameters, type_body};
ghost use Rattle.c_typed_definition.specs.Texts.{type_introduced, type_function};
ghost use Rattle.c_typed_statements.specs.Views.{text, function_of};

use crate::signatures::{parameter_type, parameters, same_signature, signature};
use crate::statements::items;
use c_phrases::operator::Spec;
use c_phrases::tree::{Function, Item, Length, Named, Param, Stars};
use c_program::need::need;
use c_program::{Action, Declaration, Routine};
use c_typed_addressed::{Addressed, addressed};
use c_typed_expressions::Functions;
use c_typed_expressions::phrase::{integer_of, written};
use c_typed_objects::environment::declare;
use c_typed_objects::initialiser::array_length;
use c_typed_objects::{Environment, Room};
use c_typed_scope::{Block, Blocks, Data, Entry, Signature};
use c_types::fault::{bad_type, refuse};
use c_types::{CType, TypeFault, TypeKind, Types, Variable};
use gg_base::{ListOf, Name};
use std::alloc::{AllocError, Global};
use tree_core::LocalNumbers;

/// A text so far: what is in scope, the functions that were declared, and those that are typed; and the offsets where the
/// bodies of the text's functions end, in order.
#[derive(Drop)]
pub struct Builder {
    pub environment: Environment,
    pub declared: Vec<Signature>,
    pub routines: Vec<Routine>,
    pub ends: ListOf<u32>,
}

/// The most parameters of a function.
const PARAMETER_LIMIT: usize = 32;

// Whether a function is a service, or is defined already: so many are, and they are numbered behind the services in the
// order of their first definitions.
fn is_defined(functions: &Functions, defined: usize, name: &Name) -> bool
    ensures { result ≡ is_below (find functions.now.names name.now) (defined + 2) }
{
    match functions.names.find(name.as_slice()) {
        Some(Entry::Function(number)) => number < 2 || number - 2 < defined,
        Some(Entry::Variable(_, _)) => false,
        Some(Entry::Array(_, _, _)) => false,
        None => false,
    }
}

// The offset of a type's first word.
fn word(spec: Spec) -> u32
    ensures { result ≡ word_of spec }
{
    match spec {
        Spec::Int { at } => at,
        Spec::Char { at } => at,
        Spec::Short { at, .. } => at,
        Spec::UnsignedChar { at, .. } => at,
        Spec::UnsignedShort { at, .. } => at,
        Spec::Void { at } => at,
    }
}

// A variable of the function's name is in the way; else the number of its earlier declaration.
fn earlier(here: &Block, name: &Name, at: u32) -> Result<Option<usize>, TypeFault>
    ensures { Gives (λ n. n) result (earlier_by (find here.now name.now) at) }
{
    match here.find(name.as_slice()) {
        None => Ok(None),
        Some(Entry::Function(number)) => Ok(Some(number)),
        Some(Entry::Variable(_, _)) => refuse(at, TypeKind::Twice),
        Some(Entry::Array(_, _, _)) => refuse(at, TypeKind::Twice),
    }
}

fn defines(f: &Function) -> bool
    ensures { result ≡ is_some (function_of f.now).body }
{
    f.body.is_some()
}

// The result of a function is no `void` with stars.
fn check_result(spec: Spec, stars: &Stars, at: u32) -> Result<(), TypeFault>
    ensures { Gives (λ u. u) result (head_by (integer_of spec) stars.now at) }
{
    match integer_of(spec) {
        Some(_) => Ok(()),
        None => match stars.as_slice() {
            [] => Ok(()),
            [..] => bad_type(at),
        },
    }
}

// A function is defined once.
#[tactic(auto, unfolding(c_typed_definition::specs::Headings::head_of))]
fn check_head(
    functions: &Functions,
    defines: bool,
    spec: Spec,
    f: &Function,
    defined: usize,
) -> Result<(), TypeFault>
    ensures { Gives (λ u. u) result (head_of defines (is_below (find functions.now.names f.now.name) (defined + 2))
        (integer_of spec) f.now.stars f.now.at) }
{
    if defines && is_defined(functions, defined, &f.name) {
        return refuse(f.at, TypeKind::Twice);
    }
    check_result(spec, &f.stars, f.at)
}

// A parameter's name and type: Twice and BadType at its name, else at the word `void`, else at the function's name.
fn check_parameter(defines: bool, at: u32, p: &Param, blocks: &Blocks) -> Result<(), TypeFault>
    ensures { Gives (λ u. u) result (parameter_form p.now.name defines at (param_of p.now) (scope blocks.now)) }
{
    let is_scalar = written(p.spec, &p.stars).is_scalar();
    match &p.name {
        Some(name) => {
            if blocks.is_taken(name.name.as_slice()) {
                return refuse(name.at, TypeKind::Twice);
            }
            if is_scalar { Ok(()) } else { bad_type(name.at) }
        }
        None => {
            if !is_scalar {
                return bad_type(word(p.spec));
            }
            if defines { bad_type(at) } else { Ok(()) }
        }
    }
}

// A length in a parameter's brackets is a constant in range too.
fn measure_parameter(
    alloc: Global,
    functions: &Functions,
    blocks: &Blocks,
    length: &Option<Length>,
    layout: &mut Data,
) -> Result<(), TypeFault>
    ensures { OnlyTurns result (area layout.new) (by_functions functions.now parameter_length
        (brackets_in (length_of length.now)) (scope blocks.now) (area layout.old)) }
{
    match length {
        None => Ok(()),
        Some(length) => match &length.value {
            None => Ok(()),
            Some(e) => {
                let _ = array_length(alloc, functions, blocks, e, layout)?;
                Ok(())
            }
        },
    }
}

// A parameter's name is in scope from here on. Where `&` is applied to it, it lies in the block.
fn add_parameter(
    alloc: Global,
    name: &Named,
    of: CType,
    number: u32,
    environment: &mut Environment,
) -> Result<(), TypeFault>
    requires free { find environment.old.blocks.here name.now.name ≡ None }
    requires scalar { is_scalar of ≡ true }
    ensures { OnlyTurns result (state environment.new) (Ok (with_parameter (Some name.now) of number (state environment.old))) }
{
    if environment.room.is_parameter_addressed(number as usize) {
        let offset = environment.room.take_parameter(of, number)?;
        let entry = Entry::Variable(of, Variable::InBlock(offset));
        declare(alloc, &mut environment.blocks, &name.name, entry)?;
    } else {
        let entry = Entry::Variable(of, Variable::Parameter(number));
        declare(alloc, &mut environment.blocks, &name.name, entry)?;
    }
    Ok(())
}

#[tactic(auto, unfolding(c_typed_definition::specs::Texts::type_parameter))]
fn declare_parameter(
    alloc: Global,
    functions: &Functions,
    defines: bool,
    at: u32,
    number: usize,
    p: &Param,
    environment: &mut Environment,
) -> Result<(), TypeFault>
    ensures { OnlyTurns result (state environment.new) (by_functions functions.now type_parameter
        defines at (param_of p.now) number (state environment.old)) }
{
    check_parameter(defines, at, p, &environment.blocks)?;
    measure_parameter(
        alloc,
        functions,
        &environment.blocks,
        &p.length,
        &mut environment.layout,
    )?;
    match &p.name {
        None => Ok(()),
        Some(name) => {
            if number > 0xffff_ffff {
                return Err(TypeFault::NoMemory);
            }
            add_parameter(alloc, name, parameter_type(p), number as u32, environment)
        }
    }
}

// The parameters, numbered in order.
#[tactic(auto, using(crate::proofs::Parameters::parameter_facts))]
fn declare_parameters(
    alloc: Global,
    functions: &Functions,
    defines: bool,
    at: u32,
    params: &[Param],
    environment: &mut Environment,
) -> Result<(), TypeFault>
    ensures { OnlyTurns result (state environment.new) (by_functions functions.now type_parameters
        defines at (param_list params.now) 0 (state environment.old)) }
{
    for (number, parameter) in params.iter().enumerate() {
        declare_parameter(
            alloc,
            functions,
            defines,
            at,
            number,
            parameter,
            environment,
        )?;
    }
    Ok(())
}

// At most 32 parameters, and the types of the earlier declaration.
#[tactic(auto, unfolding(c_typed_definition::specs::Headings::agrees))]
fn check_agreement(
    earlier: Option<usize>,
    declared: &[Signature],
    mine: &Signature,
    at: u32,
) -> Result<(), TypeFault>
    ensures { Gives (λ u. u) result (agrees earlier declared.now mine.now at) }
{
    if mine.parameters.as_slice().len() > PARAMETER_LIMIT {
        return bad_type(at);
    }
    match earlier {
        None => Ok(()),
        Some(number) => match declared.get(number) {
            None => Ok(()),
            Some(other) => {
                if same_signature(other, mine) {
                    Ok(())
                } else {
                    bad_type(at)
                }
            }
        },
    }
}

// The function's name is in scope from here on.
#[tactic(auto, using(crate::proofs::Fresh::earlier_none))]
fn introduce(
    alloc: Global,
    earlier: Option<usize>,
    spec: Spec,
    f: &Function,
    builder: &mut Builder,
) -> Result<(), TypeFault>
    requires { earlier_by (find builder.old.environment.blocks.here f.now.name) f.now.at ≡ Ok earlier }
    ensures { OnlyTurns result (text builder.new) (Ok (with_declared earlier spec (function_of f.now) (text builder.old))) }
{
    match earlier {
        Some(_) => Ok(()),
        None => {
            let number = builder.declared.len();
            declare(
                alloc,
                &mut builder.environment.blocks,
                &f.name,
                Entry::Function(number),
            )?;
            builder.declared.push(signature(alloc, spec, f)?)?;
            Ok(())
        }
    }
}

// The variables of a definition to which `&` is applied.
fn marks(alloc: Global, f: &Function) -> Result<Addressed, AllocError>
    ensures { IfOk result (λ m. marks m ≡ marks_in (function_of f.now) (function_of f.now).body) }
{
    match &f.body {
        None => Ok(Addressed::new(alloc)),
        Some(row) => addressed(alloc, parameters(&f.params), row),
    }
}

// The parameters and the body's outermost block are one scope.
fn open_function(
    alloc: Global,
    f: &Function,
    environment: &mut Environment,
) -> Result<(), TypeFault>
    ensures { OnlyTurns result (state environment.new) (Ok (entered_function (function_of f.now) (state environment.old))) }
{
    environment.blocks.enter(alloc)?;
    environment.locals = Vec::new(alloc);
    environment.registers = Vec::new(alloc);
    environment.room = Room::new(alloc, marks(alloc, f)?);
    Ok(())
}

fn close_function(alloc: Global, environment: &mut Environment)
    ensures { state environment.new ≡ left_function (state environment.old) }
{
    environment.blocks.leave();
    environment.locals = Vec::new(alloc);
    environment.registers = Vec::new(alloc);
    environment.room = Room::new(alloc, Addressed::new(alloc));
}

// What a call of a function does: it stores the parameters that are memory locals, and then its statements follow.
fn with_stores(stores: Vec<Declaration>, body: &mut Vec<Action>) -> Result<(), TypeFault>
    ensures { OnlyTurns result (acts body.new.items) (Ok (with_stores (map declaration stores.items) (acts body.old.items))) }
{
    if !stores.is_empty() {
        body.insert(0, Action::Declare(stores))?;
    }
    Ok(())
}

// The routine of a body that is typed, with the locals that it declared, the numbers of those that are declared `register`,
// and the bytes of its memory locals.
fn routine(
    alloc: Global,
    spec: Spec,
    f: &Function,
    locals: Vec<CType>,
    registers: Vec<u32>,
    block: u32,
    body: Vec<Action>,
) -> Result<Routine, TypeFault>
    ensures { Gives (λ r. routine r) result (Ok (body_of spec (function_of f.now) locals.items registers.items block (acts body.items))) }
{
    let Some(need) = need(&locals, block, &body) else {
        return Err(TypeFault::NoMemory);
    };
    let Signature { result, parameters } = signature(alloc, spec, f)?;
    Ok(Routine {
        name: Name::from_vec(Vec::from_slice(alloc, f.name.as_slice())?),
        result,
        parameters,
        locals: Types::from_vec(locals),
        registers: LocalNumbers::from_vec(registers),
        block,
        body,
        need,
    })
}

// Where the body of the next function ends.
fn body_end(builder: &Builder) -> u32
    ensures { result ≡ end_in (text builder.now) }
{
    let ends = builder.ends.as_slice();
    ends.get(builder.routines.len()).copied().unwrap_or(0)
}

#[tactic(auto, using(std::proofs::lemmas::List::map_push))]
fn define(
    alloc: Global,
    functions: &Functions,
    spec: Spec,
    f: &Function,
    row: &[Item],
    builder: &mut Builder,
) -> Result<(), TypeFault>
    ensures { OnlyTurns result (text builder.new) (by_functions functions.now type_body spec
        (function_of f.now) (Some (items_of row.now)) (state builder.old.environment) (text builder.old)) }
{
    let result = written(spec, &f.stars);
    let mut body = items(
        alloc,
        functions,
        result,
        false,
        row,
        &mut builder.environment,
    )?;
    let block = builder.environment.room.block(body_end(builder))?;
    let stores = std::mem::replace(&mut builder.environment.room.stores, Vec::new(alloc));
    with_stores(stores, &mut body)?;
    let locals = std::mem::replace(&mut builder.environment.locals, Vec::new(alloc));
    let registers = std::mem::replace(&mut builder.environment.registers, Vec::new(alloc));
    close_function(alloc, &mut builder.environment);
    let routine = routine(alloc, spec, f, locals, registers, block, body)?;
    builder.routines.push(routine)?;
    Ok(())
}

// Its parameters, its agreement with the earlier declaration, and its body, once its name is in scope.
#[tactic(auto, unfolding(c_typed_definition::specs::Texts::type_introduced))]
fn introduced(
    alloc: Global,
    functions: &Functions,
    earlier: Option<usize>,
    spec: Spec,
    f: &Function,
    builder: &mut Builder,
) -> Result<(), TypeFault>
    ensures { OnlyTurns result (text builder.new) (by_functions functions.now type_introduced earlier
        spec (function_of f.now) (text builder.old)) }
{
    let environment = &mut builder.environment;
    open_function(alloc, f, environment)?;
    declare_parameters(
        alloc,
        functions,
        defines(f),
        f.at,
        parameters(&f.params),
        environment,
    )?;
    let mine = signature(alloc, spec, f)?;
    check_agreement(earlier, &builder.declared, &mine, f.at)?;
    match &f.body {
        None => {
            close_function(alloc, &mut builder.environment);
            Ok(())
        }
        Some(row) => define(alloc, functions, spec, f, row, builder),
    }
}

/// A declaration or a definition of a function, or its first fault: at the name Twice, then a result that is no type;
/// then the parameters, their number and their agreement with the earlier declaration; then the body.
#[tactic(auto, unfolding(c_typed_definition::specs::Texts::type_function))]
pub fn function(
    alloc: Global,
    functions: &Functions,
    spec: Spec,
    f: &Function,
    builder: &mut Builder,
) -> Result<(), TypeFault>
    ensures { OnlyTurns result (text builder.new) (by_functions functions.now type_function spec
        (function_of f.now) (text builder.old)) }
{
    let before = earlier(&builder.environment.blocks.here, &f.name, f.at)?;
    check_head(functions, defines(f), spec, f, builder.routines.len())?;
    introduce(alloc, before, spec, f, builder)?;
    introduced(alloc, functions, before, spec, f, builder)
}
