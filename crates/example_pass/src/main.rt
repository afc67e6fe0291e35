// The program `example_pass`, a caller's own: it reads an assembly text from its input, runs the passes that its words name, and writes the
// text to which they lead. To its error output it tells how many changes each has made.
#![tactic(auto)]

mod both;
mod rewriting;

use rewriting::rewrite_text;
use std::env;
use std::io::{self, Read, Write};

fn main(rt: HostRuntime) -> anyhow::Result<()> {
    let alloc = rt.alloc();
    let names: Vec<String> = env::args(&rt)?.skip(1).collect(alloc)?;
    let mut bytes = Vec::new(alloc);
    rt.reader().read_to_end(&mut bytes)?;
    let rewritten = rewrite_text(alloc, &names, &bytes)?;
    io::writer(&rt).write_all(rewritten.text.as_bytes())?;
    for (place, changes) in rewritten.changes.iter().enumerate() {
        eprintln!(rt; "pass {}: {changes}", place + 1)?;
    }
    Ok(())
}
