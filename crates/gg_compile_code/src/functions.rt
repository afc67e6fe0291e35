// The code of a program's functions.
ghost use Rattle.std.specs.Prelude.{◌≤◌, IfOk};
ghost use Rattle.std.specs.List.{All};
ghost use Rattle.gg_base.specs.declared.limits.TheConstants.{NEED_LIMIT};
ghost use Rattle.vax_target.specs.vax_target_meaning.specs.Vax.{vax};
ghost use Rattle.gg_compile_code.specs.Selecting.{IsSelectedFunction, AreSelectedFunctions};
ghost use Rattle.gg_compile_code.specs.Going.{FunctionGoes, ProgramGoes};

use crate::items::{Body, body_of};
use gg_base::NoMemory;
use sel_parse::Generator;
use std::alloc::Global;
use tree_core::{TreeFn, TreeProgram};
use vax_core::CodeItem;
use vax_frames::frame_code;
use vax_homes::homed;
use vax_target::Vax;

// The code of a function: its frame round the code of its items, with its homes in registers.
#[tactic(auto, using(crate::proofs::Putting::framed_so))]
fn function(
    alloc: Global,
    generator: &Generator<Vax>,
    program: &TreeProgram,
    f: &TreeFn,
) -> Result<Vec<CodeItem>, NoMemory>
    requires few { f.now.locals ≤ NEED_LIMIT }
    requires goes { FunctionGoes vax generator.now.tables.content program.now f.now }
    ensures { IfOk result (λ c. IsSelectedFunction vax generator.now.tables.content program.now f.now c.items) }
{
    let Body { items, words } = body_of(alloc, generator, program, f)?;
    let items = homed(alloc, f, items)?;
    Ok(frame_code(alloc, f, items, words)?)
}

/// The code of a program's functions, one behind another.
pub fn functions(
    alloc: Global,
    generator: &Generator<Vax>,
    program: &TreeProgram,
) -> Result<Vec<CodeItem>, NoMemory>
    requires few { All (λ f. f.locals ≤ NEED_LIMIT) program.now.functions }
    requires goes { ProgramGoes vax generator.now.tables.content program.now }
    ensures { IfOk result (λ c. AreSelectedFunctions vax generator.now.tables.content program.now program.now.functions c.items) }
{
    let mut code = Vec::new(alloc);
    for f in program.functions.as_slice() {
        let mut part = function(alloc, generator, program, f)?;
        code.append(&mut part)?;
    }
    Ok(code)
}
