// Lines and shapes with their holes filled.

ghost use Rattle.std.specs.Prelude.{◌≡◌};
ghost use Rattle.sel_target.specs.Instances.{hole};
ghost use Rattle.sel_target.specs.StatementLaws.{att_of};
ghost use Rattle.sel_toy_machine.specs.Filling.{slot_operand, token_operand, operand_of, source_of, operand_at, source_at};
ghost use Rattle.sel_toy_machine.specs.Filling.{destination_of, instr, based, branched, jumped, called, saved, operand_filled};

use crate::forms::{form_of, shape_of};
use gg_base::{Size, w32};
use md_reader::Line;
use sel_target::{Attr, hole};
use sel_toy_machine::{Destination, Form, Instr, Operand, ShapeForm, Source};
use tree_core::{Att, Leaf, Tok, TreeProgram};

// What stands for no operand.
const NOUGHT: Operand = Operand::Number(0);

fn slot_operand(tok: Tok, k: u32) -> Operand
    ensures { result ≡ slot_operand tok k }
{
    match tok {
        Tok::Loc => Operand::Word(k),
        Tok::Arg => Operand::Argument(k),
        _ => NOUGHT,
    }
}

fn token_operand(program: &TreeProgram, leaf: Leaf) -> Operand
    ensures { result ≡ token_operand program.now leaf.tok leaf.att }
{
    match leaf.att {
        Att::Number(n) => Operand::Number(n),
        Att::Object { object, offset } => match program.objects.as_slice().get(object as usize) {
            Some(object) => Operand::Number(w32::add(object.address, offset)),
            None => NOUGHT,
        },
        Att::Slot(k) => slot_operand(leaf.tok, k),
        Att::Nothing | Att::Branch { .. } | Att::Label(_) | Att::Callee { .. } => NOUGHT,
    }
}

fn operand_of(program: &TreeProgram, hole: &Attr<Operand>) -> Operand
    ensures { result ≡ operand_of program.now hole.now }
{
    match hole {
        Attr::Reg(r) => Operand::Register(*r),
        Attr::InSlot(w) => Operand::Word(*w),
        Attr::Value(o) => *o,
        Attr::Place(o) => *o,
        Attr::Con(n) => Operand::Number(*n),
        Attr::Ea(o) => *o,
        Attr::Token(leaf) => token_operand(program, *leaf),
        Attr::Nothing => NOUGHT,
    }
}

fn source_of(program: &TreeProgram, hole: &Attr<Operand>) -> Source
    ensures { result ≡ source_of program.now hole.now }
{
    match hole {
        Attr::Ea(o) => Source::Address(*o),
        _ => Source::Read(operand_of(program, hole)),
    }
}

fn operand_at(program: &TreeProgram, holes: &[Attr<Operand>], i: u8) -> Operand
    ensures { result ≡ operand_at program.now holes.now i }
{
    match hole(holes, i) {
        Some(hole) => operand_of(program, hole),
        None => NOUGHT,
    }
}

fn source_at(program: &TreeProgram, holes: &[Attr<Operand>], i: u8) -> Source
    ensures { result ≡ source_at program.now holes.now i }
{
    match hole(holes, i) {
        Some(hole) => source_of(program, hole),
        None => Source::Read(NOUGHT),
    }
}

fn destination_of(zero: &Attr<Operand>) -> Destination
    ensures { result ≡ destination_of zero.now }
{
    match zero {
        Attr::Reg(r) => Destination::Register(*r),
        Attr::Place(Operand::Word(w)) => Destination::Word(*w),
        _ => Destination::Nowhere,
    }
}

fn based(operand: Operand) -> Operand
    ensures { result ≡ based operand }
{
    match operand {
        Operand::Register(r) => Operand::Based(r),
        _ => NOUGHT,
    }
}

fn att_at(holes: &[Attr<Operand>], i: u8) -> Option<Att>
    ensures { result ≡ att_of (hole holes.now i) }
{
    match hole(holes, i) {
        Some(Attr::Token(leaf)) => Some(leaf.att),
        _ => None,
    }
}

fn branched(att: Option<Att>, left: Source, right: Source) -> Instr
    ensures { result ≡ branched att left right }
{
    match att {
        Some(Att::Branch { rel, label }) => Instr::Branch(rel, left, right, label),
        _ => Instr::Stop,
    }
}

fn jumped(att: Option<Att>) -> Instr
    ensures { result ≡ jumped att }
{
    match att {
        Some(Att::Label(label)) => Instr::Jump(label),
        _ => Instr::Stop,
    }
}

fn called(att: Option<Att>) -> Instr
    ensures { result ≡ called att }
{
    match att {
        Some(Att::Callee { function, count }) => Instr::Call(function, count),
        _ => Instr::Stop,
    }
}

fn saved(att: Option<Att>) -> Instr
    ensures { result ≡ saved att }
{
    match att {
        Some(Att::Slot(k)) => Instr::Save(k),
        _ => Instr::Stop,
    }
}

/// A line with its holes filled.
pub fn instr(
    program: &TreeProgram,
    line: &Line,
    holes: &[Attr<Operand>],
    zero: &Attr<Operand>,
) -> Instr
    ensures { result ≡ instr program.now line.now holes.now zero.now }
{
    let destination = destination_of(zero);
    match form_of(line.pieces.as_slice()) {
        Some(Form::Move(size, i)) => Instr::Move(size, source_at(program, holes, i), destination),
        Some(Form::Address(i)) => {
            let place = Source::Address(operand_at(program, holes, i));
            Instr::Move(Size::Long, place, destination)
        }
        Some(Form::Add(i, j)) => {
            let left = source_at(program, holes, i);
            Instr::Add(left, source_at(program, holes, j), destination)
        }
        Some(Form::Divide(i, j)) => {
            let left = source_at(program, holes, i);
            Instr::Divide(left, source_at(program, holes, j), destination)
        }
        Some(Form::Store(size, i, j)) => {
            let place = operand_at(program, holes, i);
            Instr::Store(size, place, source_at(program, holes, j))
        }
        Some(Form::StoreAt(size, i, j)) => {
            let place = based(operand_at(program, holes, i));
            Instr::Store(size, place, source_at(program, holes, j))
        }
        Some(Form::Push(i)) => Instr::Push(source_at(program, holes, i)),
        Some(Form::Branch(i, j, k)) => {
            let left = source_at(program, holes, j);
            branched(att_at(holes, i), left, source_at(program, holes, k))
        }
        Some(Form::Jump(i)) => jumped(att_at(holes, i)),
        Some(Form::Call(i)) => called(att_at(holes, i)),
        Some(Form::Return(i)) => Instr::Return(source_at(program, holes, i)),
        Some(Form::Save(i)) => saved(att_at(holes, i)),
        None => Instr::Stop,
    }
}

/// A shape with its holes filled.
pub fn operand(program: &TreeProgram, shape: &Line, holes: &[Attr<Operand>]) -> Operand
    ensures { result ≡ operand_filled program.now shape.now holes.now }
{
    match shape_of(shape.pieces.as_slice()) {
        ShapeForm::Alone(i) => operand_at(program, holes, i),
        ShapeForm::Based(i) => based(operand_at(program, holes, i)),
    }
}
