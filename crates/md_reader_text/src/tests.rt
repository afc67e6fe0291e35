use crate::{integer, is_word, next_line, next_word, number};
use std::test::Fail;

#[test]
fn cuts_and_reads(rt: HostRuntime) -> Result<(), Fail> {
    let (line, rest) = next_line(b" give\t%1 \n\nx").ok_or("no line")?;
    assert!(rt; line == b" give\t%1 ".as_slice());
    let (word, behind) = next_word(line).ok_or("no word")?;
    assert!(rt; is_word(word, "give") && !is_word(word, "given"));
    let (word, behind) = next_word(behind).ok_or("no word")?;
    assert!(rt; is_word(word, "%1") && next_word(behind).is_none());
    let (empty, rest) = next_line(rest).ok_or("no line")?;
    assert!(rt; empty.is_empty());
    let (last, rest) = next_line(rest).ok_or("no line")?;
    assert!(rt; is_word(last, "x") && next_line(rest).is_none());
    Ok(())
}

#[test]
fn numbers_have_no_leading_zeros(rt: HostRuntime) {
    assert!(rt; number(255, b"0") == Some(0) && number(255, b"16") == Some(16));
    assert!(rt; number(255, b"256") == Some(255) && number(255, b"99999999999") == Some(255));
    assert!(rt; number(255, b"01").is_none() && number(255, b"").is_none());
    assert!(rt; number(255, b"1x").is_none());
    assert!(rt; integer(b"2147483647") == Some(2147483647) && integer(b"2147483648").is_none());
    assert!(rt; integer(b"-2147483648") == Some(-2147483648));
    assert!(rt; integer(b"-2147483649").is_none());
    assert!(rt; integer(b"-0").is_none() && integer(b"0") == Some(0) && integer(b"-").is_none());
}
