// What is wrong with a line that is not of the grammar.
ghost use Rattle.std.specs.Prelude.{◌≡◌};
ghost use Rattle.vax_reader.specs.Kinds.{same, is_area_word, begins_allowed, is_label_line, has_line_feed};
ghost use Rattle.vax_reader.specs.declared.kind.Stage.TheVariants as stages;
ghost use Rattle.l32_reader.specs.Kinds.{begins_mnemonic, kind_by, kind_of};

use crate::area::named;
use crate::fronts::strip;
use crate::instr::word_len;
use l32_core::Op32;
use vax_reader::AsmKind;

fn same(word: &[u8], wanted: &[u8]) -> bool
    ensures { result ≡ same word.now wanted.now }
{
    word == wanted
}

fn is_area_word(word: &[u8]) -> bool
    ensures { result ≡ is_area_word word.now }
{
    same(word, b".byte")
        || same(word, b".long")
        || same(word, b".space")
        || same(word, b".align")
        || same(word, b".word")
        || same(word, b".globl")
        || same(word, b".text")
}

fn begins_data(bytes: &[u8]) -> bool
    ensures { result ≡ begins_allowed stages.Start bytes.now }
{
    match strip(b"\t", bytes) {
        None => false,
        Some(rest) => same(&rest[..word_len(rest)], b".data"),
    }
}

fn begins_area_word(bytes: &[u8]) -> bool
    ensures { result ≡ begins_allowed stages.Area bytes.now }
{
    match strip(b"\t", bytes) {
        None => false,
        Some(rest) => is_area_word(&rest[..word_len(rest)]),
    }
}

fn begins_mnemonic(bytes: &[u8]) -> bool
    ensures { result ≡ begins_mnemonic bytes.now }
{
    match strip(b"\t", bytes) {
        None => false,
        Some(rest) => Op32::from_mnemonic(&rest[..word_len(rest)]).is_some(),
    }
}

fn is_label_line(bytes: &[u8]) -> bool
    ensures { result ≡ is_label_line bytes.now }
{
    named(b":\n", bytes).is_some()
}

fn has_line_feed(bytes: &[u8]) -> bool
    ensures { result ≡ has_line_feed bytes.now }
{
    bytes.contains(&b'\n')
}

fn kind_by(allowed: bool, bytes: &[u8]) -> AsmKind
    ensures { result ≡ kind_by allowed bytes.now }
{
    if !has_line_feed(bytes) {
        return AsmKind::Cut;
    }
    if is_label_line(bytes) || allowed {
        AsmKind::Operands
    } else {
        AsmKind::Word
    }
}

/// The kind of the first line, which is none that may stand there.
pub fn start_kind(bytes: &[u8]) -> AsmKind
    ensures { result ≡ kind_of stages.Start bytes.now }
{
    kind_by(begins_data(bytes), bytes)
}

/// The same of a line behind `.data`.
pub fn area_kind(bytes: &[u8]) -> AsmKind
    ensures { result ≡ kind_of stages.Area bytes.now }
{
    kind_by(begins_area_word(bytes), bytes)
}

/// The same of a line behind `.text`.
pub fn code_kind(bytes: &[u8]) -> AsmKind
    ensures { result ≡ kind_of stages.Code bytes.now }
{
    kind_by(begins_mnemonic(bytes), bytes)
}
