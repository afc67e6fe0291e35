use crate::expand;
use gg_base::limits::DESCRIPTION_LIMIT;
use std::alloc::Global;
use std::test::Fail;

// The lines, each with the number of the line that it comes from, and the number of the first bad `each` line.
fn shown(alloc: Global, text: &[u8]) -> Result<String, Fail> {
    let mut out = String::new(alloc);
    if text.len() as u64 > DESCRIPTION_LIMIT {
        return Ok(out);
    }
    let expanded = expand(alloc, text).ok().ok_or("no memory")?;
    for line in expanded.lines.as_slice() {
        let bytes = String::from_utf8_lossy(alloc, line.bytes.as_slice())?;
        out.push_str(&format!(in alloc; "{} {bytes}\n", line.from)?)?;
    }
    if let Some(bad) = expanded.bad {
        out.push_str(&format!(in alloc; "bad {bad}\n")?)?;
    }
    Ok(out)
}

#[test]
fn rules_are_written_out(rt: HostRuntime) -> Result<(), Fail> {
    let alloc = rt.alloc();
    let text =
        b"version 2\neach w l\n# sizes\nrule @pl : Indir^ Plus ea Mul ~ reg\n give %3[%6]\nrule @\neach l b\nrule\n";
    let lines = shown(alloc, text)?;
    let copies =
        "4 rule wpl : IndirW Plus ea Mul Two reg\n5  give %3[%6]\n4 rule lpl : IndirL Plus ea Mul Four reg\n5  give %3[%6]\n";
    let wanted = format!(in alloc; "1 version 2\n{copies}6 rule @\nbad 7\n")?;
    assert!(rt; lines.as_str() == wanted.as_str());
    let first = shown(alloc, b"# x\nversion 1\neach w l")?;
    assert!(rt; first.as_str() == "1 # x\n2 version 1\n3 each w l\n");
    Ok(())
}
