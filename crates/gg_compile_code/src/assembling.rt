// From a tree program to its code.
ghost use Rattle.std.specs.Prelude.{◌≤◌, IfOk, length};
ghost use Rattle.std.specs.List.{All};
ghost use Rattle.gg_base.specs.declared.limits.TheConstants.{AREA_LIMIT, NEED_LIMIT};
ghost use Rattle.vax_target.specs.vax_target_meaning.specs.Vax.{vax};
ghost use Rattle.gg_compile_code.specs.Selecting.{SelectedAll};
ghost use Rattle.gg_compile_code.specs.Going.{ProgramGoes};

use crate::functions::functions;
use gg_base::NoMemory;
use gg_compile_area::area_items;
use sel_parse::Generator;
use std::alloc::Global;
use tree_core::TreeProgram;
use vax_core::{Code, CodeItems};
use vax_target::Vax;

/// The code of a tree program by a description's tables: each function is a frame round the code that is selected of its trees, in
/// order, with the wanted locals in registers that may live there, and the data area is that of the objects. A function has at most
/// `NEED_LIMIT` locals, an object at most `AREA_LIMIT` bytes; no tree blocks or finds its frame full, as none does by an accepted
/// description in a program whose functions fit their frames.
pub fn assemble(
    alloc: Global,
    generator: &Generator<Vax>,
    program: &TreeProgram,
) -> Result<Code, NoMemory>
    requires locals { All (λ f. f.locals ≤ NEED_LIMIT) program.now.functions }
    requires objects { All (λ o. length o.bytes ≤ AREA_LIMIT) program.now.objects }
    requires goes { ProgramGoes vax generator.now.tables.content program.now }
    ensures { IfOk result (λ c. SelectedAll vax generator.now.tables.content program.now c) }
{
    let items = functions(alloc, generator, program)?;
    let area = area_items(alloc, program.objects.as_slice())?;
    Ok(Code {
        area,
        items: CodeItems::from_vec(items),
    })
}
