// The rules of a description, shown on a machine.
ghost use Rattle.std.specs.Prelude.{◌≡◌, IfOk, IfErr, OnOk, None};
ghost use Rattle.cmd_session.specs.Writing.{change};
ghost use Rattle.sel_terms.specs.Effects.{effect_of};
ghost use Rattle.sel_parse.specs.Shown.{first_refusal};
ghost use Rattle.cmd_descriptions.specs.Rules.{need_line, template_line, unlike_lines, TellsFault, RulesRefusedBy};

use cmd_session::{Status, no_memory, refuse_with};
use gg_accepted::{Accepted, accept};
use gg_base::{NoMemory, Text};
use gg_outside::Sink;
use lr_checked::Checked;
use lr_tables::Tables;
use sel_parse::ShowFault;
use sel_target::{TemplateKind, Templates};
use sel_terms::{Effect, show_effect};
use std::alloc::Global;

fn need_line(alloc: Global, rule: u32, need: u32) -> Result<Text, NoMemory>
    ensures { IfOk result (λ text. text ≡ need_line rule need) }
{
    let text = format!(in alloc; "ggvax: rule {rule} needs {need} registers\n")?;
    Ok(Text::from_vec(text.into_bytes()))
}

fn template_line(alloc: Global, rule: u32, line: u32, kind: TemplateKind) -> Result<Text, NoMemory>
    ensures { IfOk result (λ text. text ≡ template_line rule line kind) }
{
    let kind = kind.name();
    let text = format!(in alloc; "ggvax: rule {rule} line {line}: {kind}\n")?;
    Ok(Text::from_vec(text.into_bytes()))
}

fn unlike_lines(alloc: Global, rule: u32, wanted: &Effect, found: &Effect) -> Result<Text, NoMemory>
    ensures { IfOk result (λ text. text ≡ unlike_lines rule (effect_of wanted.now) (effect_of found.now)) }
{
    let head = format!(in alloc; "ggvax: rule {rule}\nwanted ")?;
    let mut text = head.into_bytes();
    text.extend_from_slice(show_effect(alloc, wanted)?.as_slice())?;
    text.extend_from_slice(b"\nfound ")?;
    text.extend_from_slice(show_effect(alloc, found)?.as_slice())?;
    text.push(b'\n')?;
    Ok(Text::from_vec(text))
}

// Tells what stands against the rules.
fn tell_fault<E: Sink>(alloc: Global, fault: &ShowFault, report: &mut E) -> Status
    ensures { TellsFault fault.now result (change E.Sink report.old report.new) }
{
    match fault {
        ShowFault::NoMemory => no_memory(report),
        ShowFault::PoolSmall { rule, need } => {
            let line = need_line(alloc, *rule, *need);
            refuse_with(report, line, Status::PoolSmall)
        }
        ShowFault::Template { rule, line, kind } => {
            let line = template_line(alloc, *rule, *line, *kind);
            refuse_with(report, line, Status::Unshown)
        }
        ShowFault::Unshown {
            rule,
            wanted,
            found,
        } => {
            let lines = unlike_lines(alloc, *rule, wanted, found);
            refuse_with(report, lines, Status::Unshown)
        }
    }
}

fn tell_refused<E: Sink>(alloc: Global, refused: (Tables, ShowFault), report: &mut E) -> Status
    ensures { TellsFault refused.1 result (change E.Sink report.old report.new) }
{
    tell_fault(alloc, &refused.1, report)
}

/// Shows each rule of a checked description on the machine. Where one isn't, the lines of the first refusal were written to `report`, and
/// its status is answered.
pub fn shown<T: Templates, E: Sink>(
    alloc: Global,
    checked: Checked,
    target: T,
    report: &mut E,
) -> Result<Accepted<T>, Status>
    ensures tables { IfOk result (λ a. a ≡ checked) }
    ensures shown { OnOk result (first_refusal T.meaning.effect T.meaning.spill_effect checked.content ≡ None) }
    ensures untold { OnOk result (report.new ≡ report.old) }
    ensures refused { IfErr result (λ status. RulesRefusedBy (first_refusal T.meaning.effect T.meaning.spill_effect checked.content) status
        (change E.Sink report.old report.new)) }
{
    match accept(alloc, checked, target) {
        Ok(accepted) => Ok(accepted),
        Err(refused) => Err(tell_refused(alloc, refused, report)),
    }
}
