// How long the items of a code are, and its pieces.
ghost use Rattle.std.specs.Prelude.{◌≡◌, ◌≤◌, false, length, IfOk};
ghost use Rattle.gg_base.specs.declared.size.Size.TheVariants.{Byte};
ghost use Rattle.vax_core.specs.declared.code.CodeItem.TheVariants as item_kind;
ghost use Rattle.vax_machine.specs.Functions.{action_of};
ghost use Rattle.vax_image_format.specs.Opcodes.{is_branch};
ghost use Rattle.vax_image_format.specs.Specifiers.{imm_bytes, base_bytes, operand_bytes};
ghost use Rattle.vax_image_format.specs.Instructions.{operands_bytes, item_length};
ghost use Rattle.vax_image_format.specs.Image.{target_item, piece_of, pieces_of};

use crate::operands::disp_size;
use gg_base::{Name, Size};
use std::alloc::{AllocError, Global};
use vax_core::{Addr, Base, CodeItem, Instr, Operand, OperandKind};
use vax_image_branches::{Branch, Piece};
use vax_image_format::{is_branch, is_call, is_conditional};
use vax_image_names::Labels;

// The length of an immediate: a number below 64 is its own byte.
#[tactic(auto, using(vax_image_format::proofs::LengthLaws::field_length))]
fn immediate_length(size: Size, a: &Addr) -> u32
    ensures is { result ≡ length (imm_bytes size a.now.name a.now.offset) }
    ensures small { result ≤ 5 }
{
    if a.name.is_some() {
        return 1 + size.bytes();
    }
    if a.offset < 64 { 1 } else { 1 + size.bytes() }
}

// That of a base.
#[tactic(auto, using(crate::proofs::PieceLaws::addr_long))]
fn base_length(size: Size, base: &Base) -> u32
    ensures is { result ≡ length (base_bytes size base.now) }
    ensures small { result ≤ 5 }
{
    match base {
        Base::Imm(a) => immediate_length(size, a),
        Base::Reg(_) | Base::Def(_) | Base::Dec(_) | Base::Inc(_) | Base::IncDef(_) => 1,
        Base::Disp(a, _) | Base::DispDef(a, _) => 1 + disp_size(a).bytes(),
        Base::Abs(_) | Base::Rel(_) | Base::RelDef(_) => 5,
    }
}

// That of an operand with its index.
fn operand_length(size: Size, o: &Operand) -> u32
    ensures is { result ≡ length (operand_bytes size o.now) }
    ensures small { result ≤ 6 }
{
    let base = base_length(size, &o.base);
    if o.index.is_some() { 1 + base } else { base }
}

// That of the operands together.
#[tactic(auto, using(crate::proofs::PieceLaws::operands_more))]
fn operands_length(kinds: &[OperandKind], operands: &[Operand]) -> u32
    requires { length kinds.now ≤ 3 }
    ensures is { result ≡ length (operands_bytes kinds.now operands.now) }
    ensures small { result ≤ 18 }
{
    let mut sum = 0;
    let mut left = kinds;
    let mut rest = operands;
    while let [kind, others @ ..] = left {
        let [o, more @ ..] = rest else {
            return sum;
        };
        sum += operand_length(kind.size, o);
        left = others;
        rest = more;
    }
    sum
}

// That of an instruction that is no branch.
#[tactic(auto, using(vax_core::proofs::ShapeLaws::few_operands, crate::proofs::PieceLaws::length_facts))]
fn instr_length(i: &Instr) -> u32
    requires { is_branch (action_of i.now.op) ≡ false }
    ensures { result ≡ item_length Byte (item_kind.Instr i.now) }
{
    let operands = operands_length(i.op.shape().operands, i.operands.as_slice());
    let head = if is_call(i.op) { 2 } else { 1 };
    let target = if i.target.is_some() { 4 } else { 0 };
    head + operands + target
}

// The number of the item that a branch goes to.
fn target_item(labels: &Labels, target: &Option<Name>) -> usize
    ensures { result ≡ target_item labels.now.items.now target.now }
{
    match target {
        None => 0,
        Some(label) => labels.number(label.as_slice()),
    }
}

// What an item is in the text section.
fn piece(labels: &Labels, item: &CodeItem) -> Piece
    ensures { result ≡ piece_of labels.now.items.now item.now }
{
    match item {
        CodeItem::Label(_) | CodeItem::Globl(_) => Piece::Fixed(0),
        CodeItem::Mask(_) => Piece::Fixed(2),
        CodeItem::Instr(i) => {
            if !is_branch(i.op) {
                return Piece::Fixed(instr_length(i));
            }
            Piece::Branch(Branch {
                conditional: is_conditional(i.op),
                target: target_item(labels, &i.target),
            })
        }
    }
}

/// The pieces of a code, one for each item.
pub fn pieces_of(alloc: Global, labels: &Labels) -> Result<Vec<Piece>, AllocError>
    ensures { IfOk result (λ ps. ps.items ≡ pieces_of labels.now.items.now) }
{
    labels
        .items
        .iter()
        .map(|item| piece(labels, item))
        .collect(alloc)
}
