// From a typed program to its code.
ghost use Rattle.std.specs.Prelude.{◌≡◌, ◌≤◌, true, IfOk, IfErr, OnOk};
ghost use Rattle.std.specs.List.{All};
ghost use Rattle.gg_base.specs.declared.limits.TheConstants.{NEED_LIMIT};
ghost use Rattle.c_program.specs.Programs.{program};
ghost use Rattle.c_lower_scheme.specs.Programs.{lowered};
ghost use Rattle.vax_core.specs.Valid.{is_code};
ghost use Rattle.gg_compile_laws.specs.vax_target_meaning.specs.Vax.{vax};
ghost use Rattle.gg_compile.specs.Needs.{AllFit, IsOver};
ghost use Rattle.gg_compile_laws.specs.Ready.{HasReadyTrees};
ghost use Rattle.gg_compile_laws.specs.gg_compile_code.specs.Selecting.{SelectedAll};
ghost use Rattle.gg_compile_laws.specs.Keeping.{Keeps};

use crate::fault::CompileFault;
use crate::needs::check_needs;
use c_lower::lower;
use c_typed::Program;
use gg_accepted::Accepted;
use gg_base::NoMemory;
use gg_compile_laws::assemble;
use std::alloc::Global;
use tree_core::TreeProgram;
use vax_core::Code;
use vax_target::Vax;

/// A program's trees, and the code that is selected of them.
#[derive(Drop)]
pub struct Compiled {
    pub trees: TreeProgram,
    pub code: Code,
}

// The code of trees that are ready for it: no tree of theirs blocks, turns or finds its frame full.
fn code_of(alloc: Global, accepted: &Accepted<Vax>, trees: &TreeProgram) -> Result<Code, NoMemory>
    requires ready { ∥ HasReadyTrees trees.now ∥₁ }
    requires locals { All (λ f. f.locals ≤ NEED_LIMIT) trees.now.functions }
    ensures { IfOk result (λ c. SelectedAll vax accepted.now.content trees.now c) }
{
    accepted.is_accepted();
    assemble(alloc, accepted.generator(), trees)
}

/// The trees of a program, and their code by an accepted description: each function is a frame round the code that is selected of its
/// trees, in order, and the data area is that of the objects. A text can be written of the code, and it keeps the program: it loads, and on
/// every input its run follows the program's. Refused are a function that needs too much of its frame, before any tree is looked at, and
/// want of memory, and nothing else.
pub fn compile(
    alloc: Global,
    accepted: &Accepted<Vax>,
    source: &Program,
) -> Result<Compiled, CompileFault>
    ensures trees { IfOk result (λ c. c.trees ≡ lowered (program source.now.held)) }
    ensures code { IfOk result (λ c. SelectedAll vax accepted.now.content c.trees c.code) }
    ensures valid { IfOk result (λ c. is_code c.code ≡ true) }
    ensures keeps { IfOk result (λ c. ∥ Keeps (program source.now.held) c.code ∥₁) }
    // It is refused only where a function doesn't fit, and where one doesn't; want of memory apart.
    ensures fit { OnOk result (AllFit (program source.now.held)) }
    ensures over { IfErr result (IsOver (program source.now.held)) }
{
    check_needs(source)?;
    let trees = lower(alloc, source)?;
    let code = code_of(alloc, accepted, &trees)?;
    // The rules are shown: that is what makes the code keep the program.
    accepted.is_accepted();
    Ok(Compiled { trees, code })
}
