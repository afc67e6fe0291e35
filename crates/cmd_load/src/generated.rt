// Generated sources and their programs.
ghost use Rattle.std.specs.Prelude.{◌≡◌, ◌≤◌, IfOk, vec_len, length};
ghost use Rattle.gg_load_reads.specs.c_typed_check.specs.Views.{typed};
ghost use Rattle.gg_load.specs.Source.{source_text};
ghost use Rattle.gg_load_program.specs.Program.{source_program};

use c_typed::{Program, SourceFault, read_source};
use gg_base::NoMemory;
use gg_load::make_source;
use gg_load_reads::generated_source_has_program;
use std::alloc::Global;

/// The program of a generated source, and the source's size in bytes.
#[derive(Drop)]
pub struct Generated {
    pub program: Program,
    pub size: usize,
}

/// The program of the generated source of so many functions, from 1 to 1,000.
pub fn generate(alloc: Global, functions: u32) -> Result<Generated, NoMemory>
    requires { (1 ≤ functions) × (functions ≤ 1000) }
    ensures program { IfOk result (λ g. typed g.program ≡ source_program functions) }
    ensures size { IfOk result (λ g. g.size ≡ length (source_text functions)) }
{
    generated_source_has_program();
    let source = make_source(alloc, functions)?;
    match read_source(alloc, &source) {
        Ok(program) => Ok(Generated {
            program,
            size: source.len(),
        }),
        Err(SourceFault::NoMemory) => Err(NoMemory),
        Err(SourceFault::At { .. }) => unreachable!(),
    }
}
