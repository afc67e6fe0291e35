// C sources as files whose programs are run by their meaning.
ghost use Rattle.std.specs.Prelude.{◌≡◌};

use crate::lines::fault_line;
use crate::moments::MeaningRun;
use c_meaning::SourceRun;
use c_typed::{Program, SourceFault, read_source};
use cmd_files::{FileForm, Refusal, Runs};
use cmd_session::{Status, no_memory, tell_run};
use gg_base::NoMemory;
use gg_base::limits::SOURCE_LIMIT;
use gg_outside::Sink;
use std::alloc::Global;

/// The program of a C source.
#[derive(Drop)]
pub struct SourceText {
    program: Program,
}

impl SourceText {
    /// The program.
    pub fn program(&self) -> &Program
        ensures { result.now ≡ self.now.program }
    {
        &self.program
    }
}

impl FileForm for SourceText {
    ghost use Rattle.c_program.specs.Programs.{AProgram};
    ghost use Rattle.c_typed.specs.c_typed_check.specs.Views.{typed};
    ghost use Rattle.cmd_files.specs.Forms.{not_translated};
    ghost use Rattle.cmd_meaning.specs.Sources.{source_form, source_runner};

    ghost Item = { AProgram };

    ghost form = { source_form };

    ghost runner = { source_runner };

    ghost becomes = { not_translated };

    ghost item = { λ s. typed s.program };

    fn limit() -> u64 {
        SOURCE_LIMIT
    }

    fn status() -> Status {
        Status::SourceRefused
    }

    fn read(alloc: Global, bytes: &[u8]) -> Result<Self, Refusal> {
        match read_source(alloc, bytes) {
            Ok(program) => Ok(SourceText { program }),
            Err(SourceFault::NoMemory) => Err(Refusal::NoMemory),
            Err(SourceFault::At { place, kind }) => {
                let line = fault_line(alloc, place, kind)?;
                Err(Refusal::Line(line))
            }
        }
    }
}

impl Runs for SourceText {
    fn tell<O: Sink, E: Sink>(
        &self,
        alloc: Global,
        input: &[u8],
        count: u64,
        out: &mut O,
        report: &mut E,
    ) -> Status {
        match SourceRun::new(alloc, self.program.plain(), input, count) {
            Ok(run) => {
                let mut run = MeaningRun { run };
                tell_run(alloc, &mut run, count, out, report)
            }
            Err(NoMemory) => no_memory(report),
        }
    }
}
