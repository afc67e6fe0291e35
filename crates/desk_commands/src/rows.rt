// Rows of the subject `desk`: files and calls. The lines behind `= NAME` are that file, up to the next such line or call; those behind
// `= -` are the input of the calls behind them. A line `@ WORDS` is a call, which is written with its answer and, where it is no 0, its
// status. The folder also has the shipped description as `vax.gg` and the small one as `small.gg`.
use crate::answer::answer_words;
use gg_base::{Bytes, Name, NoMemory};
use gg_outside::{MemFile, MemFolder, MemSink, MemSource};
use gg_texts::{M_GG, VAX_GG};
use std::alloc::{AllocError, Global};

const PIECE: usize = 65_536;

// A file of the rows.
#[derive(Drop)]
struct File {
    name: String,
    text: String,
}

fn put_file(
    alloc: Global,
    files: &mut Vec<MemFile>,
    name: &str,
    text: &str,
) -> Result<(), AllocError> {
    files.push(MemFile {
        name: Name::from_vec(Vec::from_slice(alloc, name.as_bytes())?),
        bytes: Bytes::from_vec(Vec::from_slice(alloc, text.as_bytes())?),
    })?;
    Ok(())
}

// The folder of the files; of two of one name the later one counts.
fn folder_of(alloc: Global, files: &[File]) -> Result<MemFolder, AllocError> {
    let mut held = Vec::new(alloc);
    for file in files.iter().rev() {
        put_file(alloc, &mut held, &file.name, &file.text)?;
    }
    put_file(alloc, &mut held, "vax.gg", VAX_GG)?;
    put_file(alloc, &mut held, "small.gg", M_GG)?;
    Ok(MemFolder::new(alloc, held, Vec::new(alloc)))
}

// The input: the last file that is called so.
fn input_of(alloc: Global, files: &[File]) -> Result<MemSource, AllocError> {
    let mut bytes = Vec::new(alloc);
    for file in files {
        if file.name.as_str() == "-" {
            bytes = Vec::from_slice(alloc, file.text.as_bytes())?;
        }
    }
    Ok(MemSource::new(bytes, PIECE, Vec::new(alloc)))
}

fn words_of(alloc: Global, text: &str) -> Result<Vec<String>, AllocError> {
    text.split(' ')
        .map(|word| String::from_str(alloc, word))
        .try_collect(alloc)
}

// A call, with its answer.
fn answer_call(
    alloc: Global,
    files: &[File],
    text: &str,
    told: &mut String,
) -> Result<(), NoMemory> {
    writeln!(told, "@ {text}")?;
    let words = words_of(alloc, text)?;
    let mut folder = folder_of(alloc, files)?;
    let mut input = input_of(alloc, files)?;
    let mut out = MemSink::new(alloc, PIECE, Vec::new(alloc));
    let mut report = MemSink::new(alloc, PIECE, Vec::new(alloc));
    let status = answer_words(
        alloc,
        &words,
        &mut folder,
        &mut input,
        &mut out,
        &mut report,
    )?;
    told.push_str(&String::from_utf8_lossy(alloc, out.bytes())?)?;
    told.push_str(&String::from_utf8_lossy(alloc, report.bytes())?)?;
    if status as u8 != 0 {
        writeln!(told, "status {}", status as u8)?;
    }
    Ok(())
}

/// Adds each call with its answer.
pub fn answer_desk(alloc: Global, rows: &str, told: &mut String) -> Result<(), NoMemory> {
    let mut files = Vec::new(alloc);
    for line in rows.lines() {
        if let Some(words) = line.strip_prefix("@ ") {
            answer_call(alloc, &files, words, told)?;
        } else if let Some(name) = line.strip_prefix("= ") {
            files.push(File {
                name: String::from_str(alloc, name)?,
                text: String::new(alloc),
            })?;
        } else if let Some(file) = files.last_mut() {
            writeln!(file.text, "{line}")?;
        }
    }
    Ok(())
}
