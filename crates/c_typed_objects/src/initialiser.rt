// Lengths in brackets, and the elements of an initialiser.
ghost use Rattle.std.specs.Prelude.{◌≡◌};
ghost use Rattle.c_phrases.specs.Shapes.{exp, exp_list};
ghost use Rattle.c_typed_scope.specs.Answers.{Turns, OnlyTurns};
ghost use Rattle.c_typed_scope.specs.Views.{scope, area, filled_so_far};
ghost use Rattle.c_typed_expressions.specs.Functions.{by_functions};
ghost use Rattle.c_typed_definition.specs.Initialisers.{type_length, type_element, type_elements};

use c_phrases::tree::Expr;
use c_typed_expressions::phrase::first;
use c_typed_expressions::{Functions, expression};
use c_typed_scope::contents::length_of;
use c_typed_scope::{Blocks, Contents, Data};
use c_types::{CType, TypeFault};
use std::alloc::Global;

/// The value of a length in brackets, a constant from 1 to `AREA_LIMIT`.
#[tactic(auto, unfolding(c_typed_definition::specs::Initialisers::type_length))]
pub fn array_length(
    alloc: Global,
    functions: &Functions,
    blocks: &Blocks,
    e: &Expr,
    layout: &mut Data,
) -> Result<u32, TypeFault>
    ensures { Turns (λ n. n) result (area layout.new) (by_functions functions.now type_length
        (scope blocks.now) (exp e.now) (area layout.old)) }
{
    let x = expression(alloc, functions, blocks, e, layout)?;
    length_of(first(e), &x)
}

/// One element of an initialiser, behind those that are written.
#[tactic(auto, unfolding(c_typed_definition::specs::Initialisers::type_element))]
pub fn element(
    alloc: Global,
    functions: &Functions,
    blocks: &Blocks,
    to: CType,
    e: &Expr,
    layout: &mut Data,
    contents: &mut Contents,
) -> Result<(), TypeFault>
    ensures { OnlyTurns result (filled_so_far contents.new, area layout.new)
        (by_functions functions.now type_element (scope blocks.now) to (exp e.now)
        (filled_so_far contents.old, area layout.old)) }
{
    let x = expression(alloc, functions, blocks, e, layout)?;
    contents.put(to, first(e), &x, &layout.objects)
}

/// The elements of a list, one after another.
pub fn elements(
    alloc: Global,
    functions: &Functions,
    blocks: &Blocks,
    to: CType,
    es: &[Expr],
    layout: &mut Data,
    contents: &mut Contents,
) -> Result<(), TypeFault>
    ensures { OnlyTurns result (filled_so_far contents.new, area layout.new)
        (by_functions functions.now type_elements (scope blocks.now) to (exp_list es.now)
        (filled_so_far contents.old, area layout.old)) }
{
    for e in es {
        element(alloc, functions, blocks, to, e, layout, contents)?;
    }
    Ok(())
}
