// The declarations of a block.
ghost use Rattle.std.specs.Prelude.{◌≡◌, [], map, Ok};
ghost use Rattle.c_phrases.specs.UnitShapes.{declarator_of, declarators_of};
ghost use Rattle.c_program.specs.Statements.{declaration};
ghost use Rattle.c_typed_scope.specs.Answers.{Turns, OnlyTurns};
ghost use Rattle.c_typed_expressions.specs.Functions.{by_functions};
ghost use Rattle.c_typed_objects.specs.Views.{state};
ghost use Rattle.c_typed_definition.specs.State.{with_register};
ghost use Rattle.c_typed_definition.specs.Automatics.{type_local, type_locals};

use crate::automatic::automatic;
use crate::environment::Environment;
use crate::objects::object;
use c_phrases::operator::{Spec, Storage};
use c_phrases::tree::Declarator;
use c_program::Declaration;
use c_typed_expressions::Functions;
use c_types::TypeFault;
use std::alloc::Global;

// The next local is declared `register`.
fn note_register(environment: &mut Environment) -> Result<(), TypeFault>
    ensures { OnlyTurns result (state environment.new) (Ok (with_register (state environment.old))) }
{
    let number = environment.locals.len();
    if number > 0xffff_ffff {
        return Err(TypeFault::NoMemory);
    }
    environment.registers.push(number as u32)?;
    Ok(())
}

fn local(
    alloc: Global,
    functions: &Functions,
    storage: Storage,
    spec: Spec,
    d: &Declarator,
    done: &mut Vec<Declaration>,
    environment: &mut Environment,
) -> Result<(), TypeFault>
    ensures { OnlyTurns result (map declaration done.new.items, state environment.new) (by_functions functions.now type_local
        storage spec (declarator_of d.now) (map declaration done.old.items) (state environment.old)) }
{
    match storage {
        Storage::Automatic => automatic(alloc, functions, false, spec, d, done, environment),
        Storage::Register { .. } => {
            note_register(environment)?;
            automatic(alloc, functions, true, spec, d, done, environment)
        }
        Storage::Static { .. } => {
            let number = object(alloc, functions, true, spec, d, environment)?;
            done.push(Declaration::Keep(number))?;
            Ok(())
        }
    }
}

/// The declarators of one declaration of a block.
pub fn locals(
    alloc: Global,
    functions: &Functions,
    storage: Storage,
    spec: Spec,
    ds: &[Declarator],
    environment: &mut Environment,
) -> Result<Vec<Declaration>, TypeFault>
    ensures { Turns (λ v. map declaration v.items) result (state environment.new)
        (by_functions functions.now type_locals storage spec (declarators_of ds.now) [] (state environment.old)) }
{
    let mut done = Vec::new(alloc);
    for d in ds {
        local(alloc, functions, storage, spec, d, &mut done, environment)?;
    }
    Ok(done)
}
