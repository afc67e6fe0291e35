use crate::{Piece, PieceFault, line_text, pieces};
use std::alloc::Global;
use std::test::Fail;

// The pieces as a text: bytes as they are, and each hole's name in angle brackets.
fn shown(alloc: Global, text: &[u8]) -> Result<String, Fail> {
    let mut out = String::new(alloc);
    match pieces(alloc, text) {
        Err(PieceFault::BadHole) => out.push_str("bad")?,
        Err(PieceFault::NoMemory) => out.push_str("no memory")?,
        Ok(read) => {
            for piece in &read {
                match piece {
                    Piece::Bytes(bytes) => out.push_str(&String::from_utf8_lossy(
                        alloc,
                        bytes.as_slice(),
                    )?)?,
                    Piece::Hole(i) => out.push_str(&format!(in alloc; "<{i}>")?)?,
                    Piece::Label => out.push_str("<L>")?,
                    Piece::Callee => out.push_str("<F>")?,
                    Piece::Count => out.push_str("<N>")?,
                }
            }
        }
    }
    Ok(out)
}

#[test]
fn texts_are_cut_at_holes(rt: HostRuntime) -> Result<(), Fail> {
    let alloc = rt.alloc();
    for (text, wanted) in [
        ("ret", "ret"),
        ("", ""),
        ("addl3 %3,%2,%0", "addl3 <3>,<2>,<0>"),
        ("%3[%16]", "<3>[<16>]"),
        ("calls %N,%F", "calls <N>,<F>"),
        ("j%1 %L", "j<1> <L>"),
        ("$-%12x", "$-<12>x"),
        ("%300", "<255>"),
        ("%", "bad"),
        ("%%1", "bad"),
        ("a%01", "bad"),
        ("%l", "bad"),
    ] {
        assert!(rt; shown(alloc, text.as_bytes())?.as_str() == wanted, "{text}");
    }
    Ok(())
}

#[test]
fn words_are_joined(rt: HostRuntime) -> Result<(), Fail> {
    let alloc = rt.alloc();
    let text = line_text(alloc, b" movl \t %1,%0 ")
        .ok()
        .flatten()
        .ok_or("no text")?;
    assert!(rt; text.as_slice() == b"movl %1,%0".as_slice());
    assert!(rt; matches!(line_text(alloc, b"a b c"), Ok(None)));
    assert!(rt; matches!(line_text(alloc, b" "), Ok(None)));
    Ok(())
}
