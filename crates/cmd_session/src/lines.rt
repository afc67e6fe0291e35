// The lines of a report.
ghost use Rattle.std.specs.Prelude.{◌≡◌, IfOk};
ghost use Rattle.cmd_session.specs.Lines.{break_name, end_line, end_status, cannot_read_line, too_long_line};

use crate::status::Status;
use gg_base::{Break, End, NoMemory, Text};
use std::alloc::Global;

fn break_name(kind: Break) -> &'static str
    ensures { result.now ≡ break_name kind }
{
    match kind {
        Break::Access => "Access",
        Break::Frame => "Frame",
        Break::BadCode => "BadCode",
        Break::StackFull => "StackFull",
    }
}

/// The line that tells how a run with so many steps ended: `ended V`, `trapped`, `wild`, `deep`, `spent N` or `broken KIND`.
/// V is the 32 bits of the value as a signed number.
pub fn end_line(alloc: Global, end: End, count: u64) -> Result<Text, NoMemory>
    ensures { IfOk result (λ line. line ≡ end_line end count) }
{
    let line = match end {
        End::Ended(value) => format!(in alloc; "ended {}\n", value.cast_signed())?,
        End::Trapped => String::from_str(alloc, "trapped\n")?,
        End::Wild => String::from_str(alloc, "wild\n")?,
        End::Deep => String::from_str(alloc, "deep\n")?,
        End::Spent => format!(in alloc; "spent {count}\n")?,
        End::Broken(kind) => format!(in alloc; "broken {}\n", break_name(kind))?,
    };
    Ok(Text::from_vec(line.into_bytes()))
}

/// The status of a command whose run came to this end.
pub fn end_status(end: End) -> Status
    ensures { result ≡ end_status end }
{
    match end {
        End::Ended(_) => Status::Done,
        End::Trapped => Status::Trapped,
        End::Wild => Status::Wild,
        End::Deep => Status::Deep,
        End::Spent => Status::Spent,
        End::Broken(_) => Status::Broken,
    }
}

/// The line of a file that was not read.
pub fn cannot_read_line(alloc: Global, name: &str) -> Result<Text, NoMemory>
    ensures { IfOk result (λ line. line ≡ cannot_read_line name.now) }
{
    let line = format!(in alloc; "ggvax: cannot read {name}\n")?;
    Ok(Text::from_vec(line.into_bytes()))
}

/// The line of a file over its limit.
pub fn too_long_line(alloc: Global, name: &str) -> Result<Text, NoMemory>
    ensures { IfOk result (λ line. line ≡ too_long_line name.now) }
{
    let line = format!(in alloc; "ggvax: {name} is too long\n")?;
    Ok(Text::from_vec(line.into_bytes()))
}
