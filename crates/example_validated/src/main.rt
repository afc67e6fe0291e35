// The program `example_validated`: it reads an assembly text from its input, tries changes of which nothing is promised, by its words, and
// writes the text of the code to which those lead that are shown to keep what it does. To its error output it tells how many were taken.
#![tactic(auto)]

mod changing;

use changing::change_text;
use std::env;
use std::io::{self, Read, Write};

fn main(rt: HostRuntime) -> anyhow::Result<()> {
    let alloc = rt.alloc();
    let names: Vec<String> = env::args(&rt)?.skip(1).collect(alloc)?;
    let mut bytes = Vec::new(alloc);
    rt.reader().read_to_end(&mut bytes)?;
    let changed = change_text(alloc, &names, &bytes)?;
    io::writer(&rt).write_all(changed.text.as_bytes())?;
    for (name, changes) in names.iter().zip(&changed.changes) {
        eprintln!(rt; "{name}: {changes}")?;
    }
    Ok(())
}
