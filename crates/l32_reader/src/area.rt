// Lines of the data area at the front of some bytes. They are those of a VAX text.
ghost use Rattle.std.specs.Prelude.{◌≡◌, ◌≤◌, IfSome};
ghost use Rattle.std.specs.Option.{option_map};
ghost use Rattle.vax_reader.specs.Fronts.{up_to, from_one};
ghost use Rattle.vax_reader.specs.Lines.{named_front, ended, counted_front, area_front};
ghost use Rattle.l32_reader.specs.Answers.{Gives};

use crate::address::{addr, owned};
use crate::fronts::{from_one, name, strip, up_to};
use crate::line_fault::LineFault;
use gg_base::Name;
use gg_base::limits::AREA_LIMIT;
use std::alloc::Global;
use vax_core::AreaItem;

/// A name with the word behind it.
#[tactic(auto, unfolding(vax_reader::specs::Lines::named_front))]
pub fn named<'a>(word: &[u8], bytes: &'a [u8]) -> Option<(&'a [u8], &'a [u8])>
    ensures { named_front word.now bytes.now ≡ option_map (λ x. (x.0.now, x.1.now)) result }
{
    let (label, rest) = name(bytes)?;
    let rest = strip(word, rest)?;
    Some((label, rest))
}

// A number up to the limit and the end of the line.
fn number_line(limit: u32, bytes: &[u8]) -> Option<(u32, &[u8])>
    ensures found { ended (up_to limit bytes.now) ≡ option_map (λ x. (x.0, x.1.now)) result }
    ensures within { IfSome result (λ x. x.0 ≤ limit) }
{
    let (n, rest) = up_to(limit, bytes)?;
    let rest = strip(b"\n", rest)?;
    Some((n, rest))
}

// A line of the data area that holds a number without sign.
#[tactic(auto, unfolding(vax_reader::specs::Lines::counted_front))]
fn counted(bytes: &[u8]) -> Option<(AreaItem, &[u8])>
    ensures { counted_front bytes.now ≡ option_map (λ x. (x.0, x.1.now)) result }
{
    if let Some(rest) = strip(b"\t.byte\t", bytes) {
        let (n, rest) = number_line(255, rest)?;
        return Some((AreaItem::Byte(n as u8), rest));
    }
    if let Some(rest) = strip(b"\t.space\t", bytes) {
        let (n, rest) = from_one(AREA_LIMIT, rest)?;
        let rest = strip(b"\n", rest)?;
        return Some((AreaItem::Space(n), rest));
    }
    if let Some(rest) = strip(b"\t.align\t", bytes) {
        let (n, rest) = number_line(2, rest)?;
        return Some((AreaItem::Align(n as u8), rest));
    }
    let rest = strip(b"\t.word\t", bytes)?;
    let (n, rest) = number_line(65535, rest)?;
    Some((AreaItem::Word(n as u16), rest))
}

/// The line of the data area at the front.
#[tactic(auto, unfolding(vax_reader::specs::Lines::area_front))]
pub fn area_line(alloc: Global, bytes: &[u8]) -> Result<(AreaItem, &[u8]), LineFault>
    ensures { Gives result (area_front bytes.now) }
{
    if let Some((label, rest)) = named(b":\n", bytes) {
        return Ok((AreaItem::Label(Name::copy_of(alloc, label)?), rest));
    }
    if let Some(rest) = strip(b"\t.long\t", bytes) {
        let Some((a, rest)) = addr(rest) else {
            return Err(LineFault::NotOfForm);
        };
        let Some(rest) = strip(b"\n", rest) else {
            return Err(LineFault::NotOfForm);
        };
        return Ok((AreaItem::Long(owned(alloc, a)?), rest));
    }
    if let Some(rest) = strip(b"\t.globl\t", bytes) {
        let Some((label, rest)) = named(b"\n", rest) else {
            return Err(LineFault::NotOfForm);
        };
        return Ok((AreaItem::Globl(Name::copy_of(alloc, label)?), rest));
    }
    match counted(bytes) {
        Some((item, rest)) => Ok((item, rest)),
        None => Err(LineFault::NotOfForm),
    }
}
