// A description of 999 rules, which has more item sets than there may be.
use gg_texts::M_GG;
use std::alloc::{AllocError, Global};

// The weights of ten binary digits, from the highest.
static WEIGHTS: [u32; 10] = [512, 256, 128, 64, 32, 16, 8, 4, 2, 1];

// The rule of a number: ten unary tokens are its binary digits, `Neg` for 0 and `Com` for 1.
fn put_rule(text: &mut String, number: u32) -> Result<(), AllocError> {
    text.push_str("rule reg :")?;
    for weight in &WEIGHTS {
        text.push_str(if number & *weight == 0 {
            " Neg"
        } else {
            " Com"
        })?;
    }
    text.push_str(" Plus One Plus One One\n  give fresh\n")
}

/// The small description with other rules: one for each number below 999, so that two of them part at the digit in which they differ, and
/// one for a statement.
pub fn large_description(alloc: Global) -> Result<String, AllocError> {
    let mut text = match M_GG.split_once("rule ") {
        Some((head, _)) => String::from_str(alloc, head)?,
        None => String::new(alloc),
    };
    for number in 0..999 {
        put_rule(&mut text, number)?;
    }
    text.push_str("rule stmt : Ret reg\n  do movl %2,r0\n  do ret\n  give nothing\n")?;
    Ok(text)
}
