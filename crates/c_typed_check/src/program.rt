// Whole texts.
ghost use Rattle.std.specs.Prelude.{◌≡◌, ◌<◌, ◌∷◌, [], IfOk, IfErr, codes, length, map, Some, Ok};
ghost use Rattle.c_types.specs.Answers.{Fault, Gives};
ghost use Rattle.c_typed_statements.specs.c_typed_operators.specs.Table.{Refused, OnlyAnswer, OnlyFault};
ghost use Rattle.c_typed_law.specs.Texts.{IsText, TextFault};
ghost use Rattle.c_typed_words.specs.Words.{HasTokens};
ghost use Rattle.c_phrases.specs.UnitShapes.{external_of, externals_of, declarators_of, unit_of};
ghost use Rattle.c_typed_scope.specs.Answers.{OnlyTurns};
ghost use Rattle.c_typed_objects.specs.Views.{state};
ghost use Rattle.c_program.specs.Programs.{AProgram, routine, program};
ghost use Rattle.c_typed_statements.specs.Views.{text};
ghost use Rattle.c_typed_expressions.specs.Functions.{by_functions};
ghost use Rattle.c_typed_statements.specs.c_typed_definition.specs.Signatures.{services, service_names, known, known_with};
ghost use Rattle.c_typed_statements.specs.c_typed_definition.specs.Texts.{type_globals, type_external, type_externals, type_text, empty_text};
ghost use Rattle.c_typed_statements.specs.c_typed_definition.specs.Texts.{is_main, main_of, any_block, stacked_if};
ghost use Rattle.c_typed_scope.specs.Views.{area};
ghost use Rattle.c_typed_check.specs.Laid.{AreLaid};
ghost use Rattle.c_typed_check.specs.Typed.{IsTypedUnit, need_at};
ghost use Rattle.c_typed_check.specs.Functions.{functions_of};

use c_phrases::Ast;
use c_phrases::operator::Spec;
use c_phrases::tree::{Declarator, Declared, External};
use c_program::Routine;
use c_typed_addressed::Addressed;
use c_typed_expressions::Functions;
use c_typed_objects::{Environment, Room, object};
use c_typed_scope::{Block, Blocks, Data, Entry, Signature, lay_stack};
use c_typed_statements::{Builder, function, signature};
use c_types::{CType, Integer, TypeFault, TypeKind, Types};
use gg_base::ListOf;
use gg_base::limits::AREA_START;
use std::alloc::{AllocError, Global};
use tree_core::{Object, Objects};

const INT: CType = CType::Integer(Integer::Int);

/// A program with its types and its layout: it is the typed program of some unit without a typing fault, whose names, numbers
/// and strings are tokens, at most 1,048,577 of them.
#[derive(Drop)]
pub struct Program {
    held: c_program::Program,
    ghost is_typed: { ∥ IsTypedUnit (program held) ∥₁ },
}

impl Program {
    /// The program's functions and objects, and the number of `main`.
    pub fn plain(&self) -> &c_program::Program
        ensures { result.now ≡ self.now.held }
    {
        &self.held
    }

    /// The objects: globals, static locals and string literals, in the order of their names or literals.
    pub fn layout(&self) -> &[Object]
        ensures objects { result.now ≡ (program self.now.held).objects }
        ensures laid { ∥ AreLaid result.now ∥₁ }
    {
        self.held.objects.as_slice()
    }

    /// How many longwords of its frame a function needs, by its number in order of definition.
    pub fn need(&self, function: u32) -> u32
        requires { function < length self.now.held.routines.items }
        ensures { result ≡ need_at (program self.now.held) function }
    {
        self.held.routines[function as usize].need
    }
}

fn services(alloc: Global) -> Result<Vec<Signature>, AllocError>
    ensures { IfOk result (λ s. s.items ≡ services) }
{
    let mut all = Vec::new(alloc);
    all.push(Signature {
        result: INT,
        parameters: Types::from_vec(Vec::from_slice(alloc, &[INT])?),
    })?;
    all.push(Signature {
        result: INT,
        parameters: Types::from_vec(Vec::new(alloc)),
    })?;
    Ok(all)
}

fn service_names(alloc: Global) -> Result<Block, AllocError>
    ensures { IfOk result (λ b. b ≡ service_names) }
{
    let mut names = Block::new(alloc);
    names.add(Vec::from_slice(alloc, b"putchar")?, Entry::Function(0))?;
    names.add(Vec::from_slice(alloc, b"getchar")?, Entry::Function(1))?;
    Ok(names)
}

// One external more: a function that is defined and that no earlier one is.
fn add_known(alloc: Global, e: &External, functions: &mut Functions) -> Result<(), TypeFault>
    ensures { OnlyTurns result (functions_of functions.new) (Ok (known_with (external_of e.now) (functions_of functions.old))) }
{
    if let Declared::Function(f) = &e.declared {
        if f.body.is_some() && functions.names.find(f.name.as_slice()).is_none() {
            let number = functions.signatures.len();
            let name = Vec::from_slice(alloc, f.name.as_slice())?;
            functions.names.add(name, Entry::Function(number))?;
            functions.signatures.push(signature(alloc, e.spec, f)?)?;
        }
    }
    Ok(())
}

// The functions that are defined in the text, the first of each name, behind the services.
#[tactic(auto, using(crate::proofs::Texts::known_step, crate::proofs::Texts::known_end))]
fn known(alloc: Global, externals: &[External]) -> Result<Functions, TypeFault>
    ensures { Gives (λ f. functions_of f) result (Ok (known (externals_of externals.now))) }
{
    let mut functions = Functions {
        names: service_names(alloc)?,
        signatures: services(alloc)?,
    };
    for e in externals {
        add_known(alloc, e, &mut functions)?;
    }
    Ok(functions)
}

#[tactic(auto, using(crate::proofs::Texts::global_step, crate::proofs::Texts::global_fails, crate::proofs::Texts::globals_end))]
fn globals(
    alloc: Global,
    functions: &Functions,
    spec: Spec,
    ds: &[Declarator],
    environment: &mut Environment,
) -> Result<(), TypeFault>
    ensures { OnlyTurns result (state environment.new) (by_functions functions.now type_globals spec
        (declarators_of ds.now) (state environment.old)) }
{
    for d in ds {
        let _ = object(alloc, functions, false, spec, d, environment)?;
    }
    Ok(())
}

fn external(
    alloc: Global,
    functions: &Functions,
    e: &External,
    builder: &mut Builder,
) -> Result<(), TypeFault>
    ensures { OnlyTurns result (text builder.new) (by_functions functions.now type_external (external_of e.now) (text builder.old)) }
{
    match &e.declared {
        Declared::Function(f) => function(alloc, functions, e.spec, f, builder),
        Declared::Globals(ds) => globals(alloc, functions, e.spec, ds, &mut builder.environment),
    }
}

#[tactic(auto, using(crate::proofs::Texts::external_step, crate::proofs::Texts::external_fails, crate::proofs::Texts::externals_end))]
fn externals(
    alloc: Global,
    functions: &Functions,
    es: &[External],
    builder: &mut Builder,
) -> Result<(), TypeFault>
    ensures { OnlyTurns result (text builder.new) (by_functions functions.now type_externals (externals_of es.now) (text builder.old)) }
{
    for e in es {
        external(alloc, functions, e, builder)?;
    }
    Ok(())
}

// Nothing is read yet: the services are declared beforehand, and the data area is empty.
fn begin(alloc: Global, ends: &ListOf<u32>) -> Result<Builder, TypeFault>
    ensures { Gives (λ b. text b) result (Ok (empty_text ends.now)) }
{
    Ok(Builder {
        environment: Environment {
            blocks: Blocks {
                outer: Vec::new(alloc),
                here: service_names(alloc)?,
            },
            locals: Vec::new(alloc),
            registers: Vec::new(alloc),
            room: Room::new(alloc, Addressed::new(alloc)),
            layout: Data {
                objects: Vec::new(alloc),
                end: AREA_START,
                literals: 0,
                statics: 0,
                measuring: false,
            },
        },
        declared: services(alloc)?,
        routines: Vec::new(alloc),
        ends: ListOf::from_vec(Vec::from_slice(alloc, ends.as_slice())?),
    })
}

fn is_main(r: &Routine) -> bool
    ensures { result ≡ is_main (routine r.now) }
{
    r.name.as_slice() == b"main".as_slice()
        && r.result.is_same(INT)
        && r.parameters.as_slice().is_empty()
}

// The number of the function where a run begins.
fn main_number(routines: &[Routine]) -> Option<usize>
    ensures { result ≡ main_of (map routine routines.now) }
{
    routines.iter().position(is_main)
}

// Some function has memory locals.
fn any_block(routines: &[Routine]) -> bool
    ensures { result ≡ any_block (map routine routines.now) }
{
    routines.iter().any(|r| r.block > 0)
}

// Then the second stack lies behind the other objects.
fn lay_if(alloc: Global, any: bool, at: u32, layout: &mut Data) -> Result<(), TypeFault>
    ensures { OnlyTurns result (area layout.new) (stacked_if any at (area layout.old)) }
{
    if any {
        lay_stack(alloc, layout, at)
    } else {
        Ok(())
    }
}

// The typed program of a unit, or its first fault, by the definition.
#[tactic(auto, using(crate::proofs::Texts::no_fault))]
fn typed_unit(alloc: Global, ast: &Ast) -> Result<Program, TypeFault>
    requires { HasTokens (unit_of ast.now) }
    ensures computed { Gives (λ p. program p.held) result (type_text (unit_of ast.now).externals ast.now.body_ends (unit_of ast.now).end) }
{
    let functions = known(alloc, &ast.externals)?;
    let mut builder = begin(alloc, &ast.body_ends)?;
    externals(alloc, &functions, &ast.externals, &mut builder)?;
    let Builder {
        environment,
        routines,
        ..
    } = builder;
    let mut environment = environment;
    lay_if(
        alloc,
        any_block(&routines),
        ast.end,
        &mut environment.layout,
    )?;
    match main_number(&routines) {
        None => Err(TypeFault::At {
            place: ast.end,
            kind: TypeKind::NoMain,
        }),
        Some(main) => Ok(Program {
            held: c_program::Program {
                objects: Objects::from_vec(environment.layout.objects),
                routines,
                main,
            },
        }),
    }
}

/// A unit with its types and its layout, or its first fault: externals in order, the parts of each from left to right,
/// operands before their operator; NoMain, at the end of the text, behind all others. The unit has at most 1,048,577 tokens,
/// and its names, numbers and strings are tokens of the grammar.
pub fn check(alloc: Global, ast: &Ast) -> Result<Program, TypeFault>
    requires { HasTokens (unit_of ast.now) }
    ensures computed { Gives (λ p. program p.held) result (type_text (unit_of ast.now).externals ast.now.body_ends (unit_of ast.now).end) }
    ensures found { IfOk result (λ p. IsText (unit_of ast.now).externals ast.now.body_ends (unit_of ast.now).end (program p.held)) }
    ensures only { (p : AProgram) → IsText (unit_of ast.now).externals ast.now.body_ends (unit_of ast.now).end p → OnlyAnswer (λ p. program p.held) result p }
    ensures refused { IfErr result (λ e. Refused (TextFault (unit_of ast.now).externals ast.now.body_ends (unit_of ast.now).end) e) }
    ensures first { (f : Fault) → TextFault (unit_of ast.now).externals ast.now.body_ends (unit_of ast.now).end f → OnlyFault result f }
{
    typed_unit(alloc, ast)
}
