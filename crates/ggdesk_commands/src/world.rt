// What a command finds in memory: files, an input, sinks, and the calls of each that fail.
ghost use Rattle.std.specs.Prelude.{◌<◌};

use crate::large::large_description;
use crate::passes::{Counted, PassName, Refusing, Twice};
use cmd_meaning::run_source;
use cmd_run::run_text;
use cmd_session::Status;
use cmd_top::ggvax;
use gg_base::{Bytes, Name};
use gg_outside::{MemFile, MemFolder, MemSink, MemSource};
use gg_texts::{L32_GG, M_GG, VAX_GG};
use std::alloc::{AllocError, Global};
use vax_codes::{JumpChain, NeedlessTest};
use vax_passes::{DeadTail, NextJump, Pass};

/// The file of the large description.
const LARGE: &str = "h";

/// The files of the commands: the text and the source that both sides are told of.
pub const TEXT: &str = "a.s";

pub const SOURCE: &str = "a.c";

pub fn put_file(
    alloc: Global,
    files: &mut Vec<MemFile>,
    name: &str,
    bytes: &[u8],
) -> Result<(), AllocError> {
    files.push(MemFile {
        name: Name::from_vec(Vec::from_slice(alloc, name.as_bytes())?),
        bytes: Bytes::from_vec(Vec::from_slice(alloc, bytes)?),
    })?;
    Ok(())
}

/// A folder with one file.
pub fn folder_of(alloc: Global, name: &str, bytes: &[u8]) -> Result<MemFolder, AllocError> {
    let mut files = Vec::new(alloc);
    put_file(alloc, &mut files, name, bytes)?;
    Ok(MemFolder::new(alloc, files, Vec::new(alloc)))
}

// A status, what was written, a bar, and what was told.
fn left(
    alloc: Global,
    status: Status,
    out: &MemSink,
    report: &MemSink,
) -> Result<String, AllocError> {
    let out = String::from_utf8_lossy(alloc, out.bytes())?;
    let report = String::from_utf8_lossy(alloc, report.bytes())?;
    format!(in alloc; "{} {out}|{}", status as u8, report.trim_end())
}

/// What a run leaves behind, by the folder's files: the text's or the source's.
pub fn ran(
    alloc: Global,
    folder: &mut MemFolder,
    of_text: bool,
    count: u64,
    input: &str,
) -> Result<String, AllocError> {
    let given = Vec::from_slice(alloc, input.as_bytes())?;
    let mut input = MemSource::new(given, 1, Vec::new(alloc));
    let mut out = MemSink::new(alloc, 1, Vec::new(alloc));
    let mut report = MemSink::new(alloc, 1, Vec::new(alloc));
    let status = if of_text {
        run_text(
            alloc,
            TEXT,
            count,
            folder,
            &mut input,
            &mut out,
            &mut report,
        )
    } else {
        run_source(
            alloc,
            SOURCE,
            count,
            folder,
            &mut input,
            &mut out,
            &mut report,
        )
    };
    left(alloc, status, &out, &report)
}

/// What the folder, the input and the sinks of one call do: the numbers of their calls that fail, how many bytes a call takes, the
/// lengths up to which a byte, else a blank, is put behind the file `s` and the input, and the passes that it is given, in order.
#[derive(Drop)]
pub struct World {
    folder: Vec<u64>,
    input: Vec<u64>,
    out: Vec<u64>,
    report: Vec<u64>,
    most: usize,
    file_length: usize,
    input_length: usize,
    fill: u8,
    pub passes: Vec<PassName>,
}

// The number behind the name of a mark and `=`.
fn numbered(mark: &str) -> Option<(&str, u32)> {
    let (name, number) = mark.split_once('=')?;
    Some((name, number.parse::<u32>().ok()?))
}

impl World {
    /// The world of marks between blanks: `folder=N`, `input=N`, `out=N` and `report=N` are calls that fail, counted from 0; `most=N` is
    /// how many bytes a call takes, else one; `file=N` and `given=N` are lengths, and `fill=N` is the byte up to them. Each of `chain`,
    /// `next`, `dead`, `test`, `twice`, `counted=N` and `refusing=N` is a pass, as `PassName` says.
    pub fn of(alloc: Global, marks: &str) -> Result<World, AllocError> {
        let mut world = World {
            folder: Vec::new(alloc),
            input: Vec::new(alloc),
            out: Vec::new(alloc),
            report: Vec::new(alloc),
            most: 1,
            file_length: 0,
            input_length: 0,
            fill: b' ',
            passes: Vec::new(alloc),
        };
        for mark in marks.split(' ') {
            match numbered(mark) {
                Some(("folder", call)) => world.folder.push(u64::from(call))?,
                Some(("input", call)) => world.input.push(u64::from(call))?,
                Some(("out", call)) => world.out.push(u64::from(call))?,
                Some(("report", call)) => world.report.push(u64::from(call))?,
                Some(("most", count)) => world.most = count as usize,
                Some(("file", length)) => world.file_length = length as usize,
                Some(("given", length)) => world.input_length = length as usize,
                Some(("fill", byte)) => world.fill = (byte % 0x100) as u8,
                Some(("counted", changes)) => world.passes.push(PassName::Counted(changes))?,
                Some(("refusing", calls)) => world.passes.push(PassName::Refusing(calls))?,
                Some(_) => {}
                None => {
                    if let Some(name) = PassName::of(mark) {
                        world.passes.push(name)?;
                    }
                }
            }
        }
        Ok(world)
    }
}

// The bytes of a text, with a byte behind them up to that length.
fn padded(alloc: Global, text: &str, length: usize, fill: u8) -> Result<Vec<u8>, AllocError> {
    let mut bytes = Vec::from_slice(alloc, text.as_bytes())?;
    if bytes.len() < length {
        bytes.resize(length, fill)?;
    }
    Ok(bytes)
}

// How many bytes a call takes: at least one.
fn at_least_one(count: usize) -> usize
    ensures { 0 < result }
{
    if 0 < count { count } else { 1 }
}

// The words between commas; none in an empty text.
fn words_of(alloc: Global, text: &str) -> Result<Vec<String>, AllocError> {
    if text.is_empty() {
        return Ok(Vec::new(alloc));
    }
    text.split(',')
        .map(|word| String::from_str(alloc, word))
        .try_collect(alloc)
}

// What was written, on one line: a TAB as `→` and a line feed as `¶`; of more than 1,000 bytes their number.
fn shown(alloc: Global, bytes: &[u8]) -> Result<String, AllocError> {
    if bytes.len() > 1_000 {
        return format!(in alloc; "({} bytes)", bytes.len());
    }
    let text = String::from_utf8_lossy(alloc, bytes)?;
    text.chars()
        .map(|letter| match letter {
            '\t' => '→',
            '\n' => '¶',
            other => other,
        })
        .collect(alloc)
}

// The files of the whole program's folder: the shipped description, the small one, that of L32, and the file of a row; the large one,
// where its first file is asked for by that name.
fn files_of(alloc: Global, words: &[String], file: &[u8]) -> Result<Vec<MemFile>, AllocError> {
    let mut files = Vec::new(alloc);
    put_file(alloc, &mut files, "d", VAX_GG.as_bytes())?;
    put_file(alloc, &mut files, "m", M_GG.as_bytes())?;
    put_file(alloc, &mut files, "l", L32_GG.as_bytes())?;
    put_file(alloc, &mut files, "s", file)?;
    if words.get(1).is_some_and(|name| name.as_str() == LARGE) {
        let large = large_description(alloc)?;
        put_file(alloc, &mut files, LARGE, large.as_bytes())?;
    }
    Ok(files)
}

// A status, what was written, a bar, and what was told, on one line.
fn left_on_a_line(
    alloc: Global,
    status: Status,
    out: &MemSink,
    report: &MemSink,
) -> Result<String, AllocError> {
    let out = shown(alloc, out.bytes())?;
    let report = shown(alloc, report.bytes())?;
    format!(in alloc; "{} {out}|{report}", status as u8)
}

// Runs the whole program with the passes of those names.
fn run_program(
    alloc: Global,
    words: &[String],
    names: &[PassName],
    folder: &mut MemFolder,
    input: &mut MemSource,
    out: &mut MemSink,
    report: &mut MemSink,
) -> Result<Status, AllocError> {
    let mut passes: Vec<Box<dyn Pass>> = Vec::new(alloc);
    for name in names {
        match *name {
            PassName::Chain => passes.push(Box::new(alloc, JumpChain::new(alloc))?)?,
            PassName::Next => passes.push(Box::new(alloc, NextJump::new(alloc))?)?,
            PassName::Dead => passes.push(Box::new(alloc, DeadTail::new(alloc))?)?,
            PassName::Test => passes.push(Box::new(alloc, NeedlessTest::new(alloc))?)?,
            PassName::Twice => {
                let next = NextJump::new(alloc);
                passes.push(Box::new(alloc, Twice::new(next))?)?;
            }
            PassName::Counted(changes) => {
                let counted = Counted::new(u64::from(changes));
                passes.push(Box::new(alloc, counted)?)?;
            }
            PassName::Refusing(calls) => passes.push(Box::new(alloc, Refusing::new(calls))?)?,
        }
    }
    Ok(ggvax(alloc, words, folder, input, out, report, &mut passes))
}

/// What the whole program leaves behind: its status, what its output gained, a bar, and what its report gained. The folder has the
/// shipped description as `d`, the small one as `m`, that of L32 as `l`, the large one as `h`, and the file `s`.
pub fn called(
    alloc: Global,
    words: &str,
    file: &str,
    input: &str,
    world: World,
) -> Result<String, AllocError> {
    let words = words_of(alloc, words)?;
    let bytes = padded(alloc, file, world.file_length, world.fill)?;
    let files = files_of(alloc, words.as_slice(), bytes.as_slice())?;
    let given = padded(alloc, input, world.input_length, world.fill)?;
    let most = at_least_one(world.most);
    let mut folder = MemFolder::new(alloc, files, world.folder);
    let mut input = MemSource::new(given, most, world.input);
    let mut out = MemSink::new(alloc, most, world.out);
    let mut report = MemSink::new(alloc, most, world.report);
    let status = run_program(
        alloc,
        words.as_slice(),
        world.passes.as_slice(),
        &mut folder,
        &mut input,
        &mut out,
        &mut report,
    )?;
    left_on_a_line(alloc, status, &out, &report)
}

/// A status and what was told with it.
pub fn refusal(alloc: Global, status: Status, report: &MemSink) -> Result<String, AllocError> {
    let report = String::from_utf8_lossy(alloc, report.bytes())?;
    format!(in alloc; "{} {}", status as u8, report.trim_end())
}
