// Which functions fit a frame.
ghost use Rattle.std.specs.Prelude.{IfErr, OnOk};
ghost use Rattle.c_program.specs.Programs.{program};
ghost use Rattle.gg_compile.specs.Needs.{AllFit, IsOver};

use crate::fault::CompileFault;
use c_typed::Program;
use gg_base::limits::NEED_LIMIT;
use gg_base::number_of;

/// Refuses a program with a function that needs more than `NEED_LIMIT` words of its frame: the first such function.
#[tactic(auto, using(crate::proofs::Needing::one_fits, crate::proofs::Needing::all_fit, crate::proofs::Needing::first_over))]
pub fn check_needs(source: &Program) -> Result<(), CompileFault>
    ensures fit { OnOk result (AllFit (program source.now.held)) }
    ensures over { IfErr result (IsOver (program source.now.held)) }
{
    let count = source.plain().routines.len();
    for number in 0..count {
        let function = number_of(number)?;
        let need = source.need(function);
        if need > NEED_LIMIT {
            return Err(CompileFault::FrameFull { function, need });
        }
    }
    Ok(())
}
