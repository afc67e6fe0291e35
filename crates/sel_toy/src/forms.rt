// What the lines and shapes of a template spell.

ghost use Rattle.std.specs.Prelude.{◌≡◌};
ghost use Rattle.sel_toy_machine.specs.Forms.{letter, nth_hole, statement_by, store_by, form_by, form_of, shape_of};

use gg_base::Size;
use md_reader::Piece;
use sel_toy_machine::{Form, ShapeForm};

// The letter that a line begins with.
fn letter(pieces: &[Piece]) -> u8
    ensures { result ≡ letter pieces.now }
{
    match pieces.first() {
        Some(Piece::Bytes(word)) => match word.as_slice().first() {
            Some(letter) => *letter,
            None => 0,
        },
        _ => 0,
    }
}

// The number of the first hole, or of the one behind it; 255 where there is none.
fn nth_hole(pieces: &[Piece], n: u8) -> u8
    ensures { result ≡ nth_hole pieces.now n }
{
    match pieces.split_first() {
        Some((Piece::Hole(i), others)) => { if n == 0 { *i } else { nth_hole(others, n - 1) } }
        Some((_, others)) => nth_hole(others, n),
        None => 255,
    }
}

fn statement_by(letter: u8, i: u8, j: u8, k: u8) -> Option<Form>
    ensures { result ≡ statement_by letter i j k }
{
    match letter {
        b'p' => Some(Form::Push(i)),
        b't' => Some(Form::Branch(i, j, k)),
        b'j' => Some(Form::Jump(i)),
        b'c' => Some(Form::Call(i)),
        b'r' => Some(Form::Return(i)),
        b'v' => Some(Form::Save(i)),
        _ => None,
    }
}

fn store_by(letter: u8, i: u8, j: u8, k: u8) -> Option<Form>
    ensures { result ≡ store_by letter i j k }
{
    match letter {
        b'x' => Some(Form::Store(Size::Byte, i, j)),
        b'y' => Some(Form::Store(Size::Word, i, j)),
        b's' => Some(Form::Store(Size::Long, i, j)),
        b'X' => Some(Form::StoreAt(Size::Byte, i, j)),
        b'Y' => Some(Form::StoreAt(Size::Word, i, j)),
        b'S' => Some(Form::StoreAt(Size::Long, i, j)),
        _ => statement_by(letter, i, j, k),
    }
}

fn form_by(letter: u8, i: u8, j: u8, k: u8) -> Option<Form>
    ensures { result ≡ form_by letter i j k }
{
    match letter {
        b'b' => Some(Form::Move(Size::Byte, i)),
        b'w' => Some(Form::Move(Size::Word, i)),
        b'l' => Some(Form::Move(Size::Long, i)),
        b'e' => Some(Form::Address(i)),
        b'a' => Some(Form::Add(i, j)),
        b'd' => Some(Form::Divide(i, j)),
        _ => store_by(letter, i, j, k),
    }
}

/// What a line spells, if it spells an instruction.
pub fn form_of(pieces: &[Piece]) -> Option<Form>
    ensures { result ≡ form_of pieces.now }
{
    let i = nth_hole(pieces, 0);
    let j = nth_hole(pieces, 1);
    form_by(letter(pieces), i, j, nth_hole(pieces, 2))
}

/// What a shape spells.
pub fn shape_of(pieces: &[Piece]) -> ShapeForm
    ensures { result ≡ shape_of pieces.now }
{
    match pieces.first() {
        Some(Piece::Hole(i)) => ShapeForm::Alone(*i),
        _ => ShapeForm::Based(nth_hole(pieces, 0)),
    }
}
