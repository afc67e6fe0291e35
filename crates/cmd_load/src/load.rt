// The command `load D K`.
ghost use Rattle.std.specs.Prelude.{◌≡◌, ◌≤◌, ℕ, List};
ghost use Rattle.cmd_session.specs.Words.{IsCount, greatest_size};
ghost use Rattle.cmd_session.specs.Writing.{change};
ghost use Rattle.cmd_files.specs.Outsides.{lookup, outside, FailsAtMost};
ghost use Rattle.cmd_compile.specs.Passing.{passing, AreKept};
ghost use Rattle.cmd_load.specs.Outcome.{Loads, Leaves, MayCome};
ghost use Rattle.cmd_load.specs.Exact.{IsExact};

use crate::generated::generate;
use crate::laws::both_sides_end_alike;
use crate::sides::{Sizes, run_sides, tell_sides};
use cmd_compile::{Accepted, Pass, Vax, read_accepted, text_of};
use cmd_session::{Status, no_memory};
use gg_base::NoMemory;
use gg_load_reads::generated_source_has_program;
use gg_outside::{Folder, Sink};
use std::alloc::Global;

// By an accepted description: the generated source, its text, and both sides' runs.
fn load_by<O: Sink, E: Sink>(
    alloc: Global,
    accepted: &Accepted<Vax>,
    functions: u32,
    out: &mut O,
    report: &mut E,
    passes: &mut Vec<Box<dyn Pass>>,
) -> Status
    requires { (1 ≤ functions) × (functions ≤ 1000) }
    ensures loads { Loads (passing (λ p n c e. wrote p n c e) (λ p. made p) passes.old.items passes.new.items)
        accepted.now.content functions result (change O.Sink out.old out.new) (change E.Sink report.old report.new) }
    ensures kept { AreKept (λ p. p.vtable) (λ p. made p) passes.old.items passes.new.items }
{
    generated_source_has_program();
    both_sides_end_alike();
    let generated = match generate(alloc, functions) {
        Ok(generated) => generated,
        Err(NoMemory) => return no_memory(report),
    };
    let text = match text_of(alloc, accepted, &generated.program, passes, report) {
        Ok(text) => text,
        Err(status) => return status,
    };
    let sizes = Sizes {
        functions,
        source: generated.size,
        text: text.len(),
    };
    match run_sides(alloc, generated.program.plain(), text.as_bytes()) {
        Ok(sides) => tell_sides(alloc, sizes, &sides, out, report),
        Err(NoMemory) => no_memory(report),
    }
}

// The command, with what each of its statuses says.
fn read_and_load<F: Folder, O: Sink, E: Sink>(
    alloc: Global,
    description: &str,
    functions: u64,
    folder: &mut F,
    out: &mut O,
    report: &mut E,
    passes: &mut Vec<Box<dyn Pass>>,
) -> Status
    requires { IsCount greatest_size functions }
    ensures leaves { Leaves (passing (λ p n c e. wrote p n c e) (λ p. made p) passes.old.items passes.new.items)
        result description.now functions
        (outside F.Folder O.Sink E.Sink folder.old folder.new out.old out.new report.old report.new) }
    ensures names { FailsAtMost description.now (lookup F.Folder folder.old folder.new) }
    ensures holds { (n : List ℕ) → F.holds folder.new n ≡ F.holds folder.old n }
    ensures kept { AreKept (λ p. p.vtable) (λ p. made p) passes.old.items passes.new.items }
{
    let accepted = match read_accepted(alloc, folder, description, report) {
        Ok(accepted) => accepted,
        Err(status) => return status,
    };
    load_by(alloc, &accepted, functions as u32, out, report, passes)
}

/// The command `load D K`: reads the machine description `description`, makes the source of so many functions, from 1 to 1,000, compiles
/// it, runs the passes over its code, reads the text again, and runs both sides on no input with the number 100,000,000. The output of the
/// text's run goes to `out`, and then a line to `report`: the sizes, how many turns and instructions the sides took, and their end. A
/// refusal writes its lines to `report`. Nothing of the input is taken, and nothing is written to `out` before both sides were run.
pub fn load_generated<F: Folder, O: Sink, E: Sink>(
    alloc: Global,
    description: &str,
    functions: u64,
    folder: &mut F,
    out: &mut O,
    report: &mut E,
    passes: &mut Vec<Box<dyn Pass>>,
) -> Status
    requires { IsCount greatest_size functions }
    // What was found in the file, where the passes led, what both sides came to, and what both outputs gained.
    ensures leaves { Leaves (passing (λ p n c e. wrote p n c e) (λ p. made p) passes.old.items passes.new.items)
        result description.now functions
        (outside F.Folder O.Sink E.Sink folder.old folder.new out.old out.new report.old report.new) }
    // No other status comes: the source is one, its functions fit, its text is read and can be run, and both sides end alike.
    ensures comes { MayCome result }
    // Each status comes where its cause is there, but for counted faults and want of memory.
    ensures exact { IsExact result description.now
        (outside F.Folder O.Sink E.Sink folder.old folder.new out.old out.new report.old report.new) }
    // The folder is asked for that name alone, and stays as it was.
    ensures names { FailsAtMost description.now (lookup F.Folder folder.old folder.new) }
    ensures holds { (n : List ℕ) → F.holds folder.new n ≡ F.holds folder.old n }
    // The list holds the same passes in the same order, and no one's number of changes fell.
    ensures kept { AreKept (λ p. p.vtable) (λ p. made p) passes.old.items passes.new.items }
{
    read_and_load(alloc, description, functions, folder, out, report, passes)
}
