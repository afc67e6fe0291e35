// The registers and the frame words that entries hold.
ghost use Rattle.std.specs.Prelude.{◌≡◌, ◌==◌, ◌<◌, length, IfSome};
ghost use Rattle.std.specs.Int.{bit_at};
ghost use Rattle.sel_target.specs.Symbols.{first_that, is_register};
ghost use Rattle.sel_parse_desk.specs.Entries.{in_register, word_of, in_word};
ghost use Rattle.sel_parse_desk.specs.Desk.{register_held, word_held};
ghost use Rattle.sel_parse_desk.specs.Spills.{holds_some, may_go};

use sel_target::{Attr, Templates};

/// How many registers there are that a rule may take.
pub const REGISTERS: u8 = 12;

/// Whether a register is in a set of registers.
pub fn is_in(set: u16, register: u8) -> bool
    requires { register < 12 }
    ensures { result ≡ (bit_at set register == 1) }
{
    (set >> register) % 2 == 1
}

/// Whether an attribute holds a register.
pub fn in_register<T: Templates>(target: &T, register: u8, attr: &Attr<T::Operand>) -> bool
    requires { register < 12 }
    ensures { result ≡ in_register T.meaning register attr.now }
{
    match attr {
        Attr::Reg(own) => *own == register,
        Attr::Value(operand) => is_in(target.registers(operand), register),
        Attr::Place(operand) => is_in(target.registers(operand), register),
        Attr::Ea(operand) => is_in(target.registers(operand), register),
        Attr::InSlot(_) => false,
        Attr::Con(_) => false,
        Attr::Token(_) => false,
        Attr::Nothing => false,
    }
}

/// The frame word that an attribute holds, if it holds one.
pub fn word_of<T: Templates>(target: &T, attr: &Attr<T::Operand>) -> Option<u32>
    ensures { result ≡ word_of T.meaning attr.now }
{
    match attr {
        Attr::InSlot(word) => Some(*word),
        Attr::Value(operand) => target.word(operand),
        Attr::Place(operand) => target.word(operand),
        Attr::Ea(operand) => target.word(operand),
        Attr::Reg(_) => None,
        Attr::Con(_) => None,
        Attr::Token(_) => None,
        Attr::Nothing => None,
    }
}

/// Whether an attribute holds some register.
pub fn holds_some<T: Templates>(target: &T, attr: &Attr<T::Operand>) -> bool
    ensures { result ≡ holds_some T.meaning attr.now }
{
    (0..REGISTERS).any(|register| in_register(target, register, attr))
}

/// Whether one of a rule's few symbols holds a register.
pub fn register_held<T: Templates>(target: &T, attrs: &[Attr<T::Operand>], register: u8) -> bool
    requires { register < 12 }
    ensures { result ≡ register_held T.meaning attrs.now register }
{
    attrs.iter().any(|attr| in_register(target, register, attr))
}

fn in_word<T: Templates>(target: &T, word: u32, attr: &Attr<T::Operand>) -> bool
    ensures { result ≡ in_word T.meaning word attr.now }
{
    match word_of(target, attr) {
        Some(own) => own == word,
        None => false,
    }
}

/// Whether one of a rule's few symbols holds a frame word.
pub fn word_held<T: Templates>(target: &T, attrs: &[Attr<T::Operand>], word: u32) -> bool
    ensures { result ≡ word_held T.meaning attrs.now word }
{
    attrs.iter().any(|attr| in_word(target, word, attr))
}

fn is_register<O>(attr: &Attr<O>) -> bool
    ensures { result ≡ is_register attr.now }
{
    matches!(attr, Attr::Reg(_))
}

// Whether a symbol of a rule may be saved: it holds a register, and is none itself.
fn may_go<T: Templates>(target: &T, attr: &Attr<T::Operand>) -> bool
    ensures { result ≡ may_go T.meaning attr.now }
{
    !is_register(attr) && holds_some(target, attr)
}

/// The first of a rule's few symbols that may be saved.
pub fn first_to_go<T: Templates>(target: &T, attrs: &[Attr<T::Operand>]) -> Option<usize>
    ensures place { result ≡ first_that (may_go T.meaning) attrs.now }
    ensures within { IfSome result (λ i. i < length attrs.now) }
{
    attrs.iter().position(|attr| may_go(target, attr))
}
