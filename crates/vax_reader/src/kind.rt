// What is wrong with a line that is not of the grammar.
ghost use Rattle.std.specs.Prelude.{◌≡◌, nat_eq};
ghost use Rattle.vax_reader.specs.Kinds.{same, is_area_word, is_code_word, is_allowed, begins_allowed};
ghost use Rattle.vax_reader.specs.Kinds.{is_label_line, has_line_feed, kind_of};

use crate::fault::AsmKind;
use crate::fronts::strip;
use crate::instr::word_len;
use crate::line::named;
use vax_core::Op;

/// Where in a text a line stands.
#[derive(Clone, Copy)]
pub enum Stage {
    /// It is the first line.
    Start,
    /// It is behind `.data`.
    Area,
    /// It is behind `.text`.
    Code,
}

fn same(word: &[u8], wanted: &[u8]) -> bool
    ensures { result ≡ same word.now wanted.now }
{
    word == wanted
}

fn is_area_word(word: &[u8]) -> bool
    ensures { result ≡ is_area_word word.now }
{
    same(word, b".byte")
        || same(word, b".long")
        || same(word, b".space")
        || same(word, b".align")
        || same(word, b".word")
        || same(word, b".globl")
        || same(word, b".text")
}

fn is_code_word(word: &[u8]) -> bool
    ensures { result ≡ is_code_word word.now }
{
    same(word, b".globl") || same(word, b".word") || Op::from_mnemonic(word).is_some()
}

fn is_allowed(stage: Stage, word: &[u8]) -> bool
    ensures { result ≡ is_allowed stage word.now }
{
    match stage {
        Stage::Start => same(word, b".data"),
        Stage::Area => is_area_word(word),
        Stage::Code => is_code_word(word),
    }
}

fn begins_allowed(stage: Stage, bytes: &[u8]) -> bool
    ensures { result ≡ begins_allowed stage bytes.now }
{
    match strip(b"\t", bytes) {
        None => false,
        Some(rest) => is_allowed(stage, &rest[..word_len(rest)]),
    }
}

fn is_label_line(bytes: &[u8]) -> bool
    ensures { result ≡ is_label_line bytes.now }
{
    named(b":\n", bytes).is_some()
}

fn has_line_feed(bytes: &[u8]) -> bool
    ensures { result ≡ has_line_feed bytes.now }
{
    bytes.contains(&b'\n')
}

/// The kind of the line at the front, which is none that may stand there.
pub fn kind_of(stage: Stage, bytes: &[u8]) -> AsmKind
    ensures { result ≡ kind_of stage bytes.now }
{
    if !has_line_feed(bytes) {
        return AsmKind::Cut;
    }
    if is_label_line(bytes) || begins_allowed(stage, bytes) {
        AsmKind::Operands
    } else {
        AsmKind::Word
    }
}
