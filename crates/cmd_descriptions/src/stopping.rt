// Whether some tree stops the parse by a description's tables.
ghost use Rattle.std.specs.Prelude.{◌≡◌, ◌++◌, IfOk, IfErr, OnOk};
ghost use Rattle.cmd_session.specs.Writing.{change};
ghost use Rattle.lr_checked.specs.Accepted.{NeverStops};
ghost use Rattle.lr_checked.specs.Counted.{HasTooManySums};
ghost use Rattle.lr_checked.specs.Lines.{sample_lines};
ghost use Rattle.cmd_descriptions.specs.Stops.{TellsStop, StopRefused};

use cmd_session::{Status, no_memory, refuse, refuse_with};
use gg_base::{NoMemory, Text};
use gg_outside::Sink;
use lr_check::Sample;
use lr_checked::{CheckFault, Checked, check, sample_lines};
use lr_tables::Tables;
use std::alloc::Global;

// A line, and the lines of a sample behind it.
fn stop_lines(alloc: Global, line: &str, sample: &Sample) -> Result<Text, NoMemory>
    ensures { IfOk result (λ text. text ≡ line.now ++ sample_lines sample.now) }
{
    let mut text = Vec::from_slice(alloc, line.as_bytes())?;
    text.extend_from_slice(sample_lines(alloc, sample)?.as_slice())?;
    Ok(Text::from_vec(text))
}

// Tells why tables are refused.
fn tell_stop<E: Sink>(alloc: Global, fault: &CheckFault, report: &mut E) -> Status
    ensures { TellsStop fault.now result (change E.Sink report.old report.new) }
{
    match fault {
        CheckFault::NoMemory => no_memory(report),
        CheckFault::Blocks(sample) => {
            let lines = stop_lines(alloc, "ggvax: blocks\n", sample);
            refuse_with(report, lines, Status::Blocks)
        }
        CheckFault::Loops(sample) => {
            let lines = stop_lines(alloc, "ggvax: loops\n", sample);
            refuse_with(report, lines, Status::Loops)
        }
        CheckFault::CheckFull => refuse(
            report,
            b"ggvax: more than 4000000 summaries\n",
            Status::Full,
        ),
    }
}

fn tell_refused<E: Sink>(alloc: Global, refused: (Tables, CheckFault), report: &mut E) -> Status
    ensures { TellsStop refused.1 result (change E.Sink report.old report.new) }
{
    tell_stop(alloc, &refused.1, report)
}

/// The tables as checked, where no typed statement stops the parse by them. Where one does, its lines were written to `report`, and the
/// status of that refusal is answered.
pub fn checked<E: Sink>(alloc: Global, tables: Tables, report: &mut E) -> Result<Checked, Status>
    ensures tables { IfOk result (λ c. c ≡ tables) }
    ensures never { OnOk result (NeverStops tables.content) }
    ensures sums { OnOk result (¬ HasTooManySums tables.content) }
    ensures untold { OnOk result (report.new ≡ report.old) }
    ensures refused { IfErr result (λ status. StopRefused tables.content status (change E.Sink report.old report.new)) }
{
    tables.is_numbered();
    match check(alloc, tables) {
        Ok(checked) => Ok(checked),
        Err(refused) => Err(tell_refused(alloc, refused, report)),
    }
}
