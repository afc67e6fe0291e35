// The lines of a description's check.
ghost use Rattle.std.specs.Prelude.{◌≡◌, IfOk};
ghost use Rattle.cmd_descriptions.specs.Lines.{kind_name, wrong_line, ok_line};

use gg_base::{NoMemory, Text};
use md_reader::DescKind;
use std::alloc::Global;

fn kind_name(kind: DescKind) -> &'static str
    ensures { result.now ≡ kind_name kind }
{
    match kind {
        DescKind::BadEach => "BadEach",
        DescKind::BadWord => "BadWord",
        DescKind::Limit => "Limit",
        DescKind::Twice => "Twice",
        DescKind::UnknownClass => "UnknownClass",
        DescKind::UnknownToken => "UnknownToken",
        DescKind::NotATree => "NotATree",
        DescKind::WrongSort => "WrongSort",
        DescKind::BadIf => "BadIf",
        DescKind::BadHole => "BadHole",
        DescKind::BadGive => "BadGive",
        DescKind::MissingVersion => "MissingVersion",
        DescKind::MissingTarget => "MissingTarget",
        DescKind::MissingPool => "MissingPool",
        DescKind::MissingStmt => "MissingStmt",
        DescKind::MissingSpill => "MissingSpill",
        DescKind::MissingReload => "MissingReload",
        DescKind::MissingRule => "MissingRule",
        DescKind::MissingGive => "MissingGive",
    }
}

/// The line that names the first wrong line of a description and what is wrong there.
pub fn wrong_line(alloc: Global, line: u32, kind: DescKind) -> Result<Text, NoMemory>
    ensures { IfOk result (λ text. text ≡ wrong_line line kind) }
{
    let text = format!(in alloc; "ggvax: description line {line}: {}\n", kind_name(kind))?;
    Ok(Text::from_vec(text.into_bytes()))
}

/// The line of an accepted description: how many rules it has, and how many states its tables have.
pub fn ok_line(alloc: Global, rules: u32, states: u32) -> Result<Text, NoMemory>
    ensures { IfOk result (λ text. text ≡ ok_line rules states) }
{
    let text = format!(in alloc; "ok: {rules} rules, {states} states\n")?;
    Ok(Text::from_vec(text.into_bytes()))
}
