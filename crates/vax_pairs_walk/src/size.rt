// The size of terms, which doubles with each sum of a register with itself.

use term_core::{Form, Term, form_of};

/// The greatest size of a term that a register may hold: so many constants, symbols and operators.
pub const TERM_LIMIT: u8 = 250;

/// What is left of the room for so many constants, symbols and operators behind those of a term; None where it has more.
pub fn room_behind(t: &Term, room: u8) -> Option<u8> {
    let room = room.checked_sub(1)?;
    match form_of(t) {
        Form::Constant(_) | Form::Symbol(_) | Form::LastResult => Some(room),
        Form::Memory(_, t) | Form::Unary(_, t) => room_behind(t, room),
        Form::Binary(_, a, b) => room_behind(b, room_behind(a, room)?),
    }
}
