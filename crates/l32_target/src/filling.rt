// Operands of templates with their holes filled.
ghost use Rattle.std.specs.Prelude.{◌≡◌, IfOk};
ghost use Rattle.vax_templates.specs.Filled.{object_addr};
ghost use Rattle.l32_templates.specs.Filled.{spare, attr_at, register_in, number_of_att, number_in, number_filled, word_operand};
ghost use Rattle.l32_templates.specs.Filled.{slot_operand, slot_deferred, leaf_operand, operand_in, leaf_deferred};
ghost use Rattle.l32_templates.specs.Filled.{deferred_in, filled, filled_operand};

use gg_base::limits::NEED_LIMIT;
use gg_base::{Name, NoMemory, w32};
use l32_core::{Base32, Operand32};
use l32_target_forms::instruction::shape_of_pieces;
use l32_templates::Form;
use l32_templates::home::{argument_home, at_home, home};
use md_reader::Piece;
use sel_target::Attr;
use std::alloc::Global;
use tree_core::{Att, Leaf, Tok, TreeProgram};
use vax_core::Addr;
use vax_target_forms::refusal::Refusal;
use vax_templates::Number;

/// What the holes of a template are filled with; the last is `%0`.
#[derive(Clone, Copy)]
pub struct Filling<'a> {
    pub alloc: Global,
    pub program: &'a TreeProgram,
    pub holes: &'a [Attr<Operand32>],
    pub zero: &'a Attr<Operand32>,
}

// What stands where a hole has nothing that can be spelled there: `$0`.
fn spare() -> Operand32
    ensures { result ≡ spare }
{
    Operand32::Num(0)
}

fn copied(alloc: Global, operand: &Operand32) -> Result<Operand32, NoMemory>
    ensures { IfOk result (λ o. o ≡ operand.now) }
{
    Ok(match operand {
        Operand32::Num(n) => Operand32::Num(*n),
        Operand32::Reg(n) => Operand32::Reg(*n),
        Operand32::At(n, base) => Operand32::At(*n, *base),
        Operand32::Deferred(n, base) => Operand32::Deferred(*n, *base),
        Operand32::Addr(a) => Operand32::Addr(a.copy(alloc)?),
    })
}

fn register_in(attr: &Attr<Operand32>) -> u8
    ensures { result ≡ register_in attr.now }
{
    match attr {
        Attr::Reg(n) => *n,
        _ => 0,
    }
}

fn number_of_att(att: Att) -> u32
    ensures { result ≡ number_of_att att }
{
    match att {
        Att::Number(n) => n,
        _ => 0,
    }
}

fn number_in(attr: &Attr<Operand32>) -> u32
    ensures { result ≡ number_in attr.now }
{
    match attr {
        Attr::Con(n) => *n,
        Attr::Token(leaf) => number_of_att(leaf.att),
        _ => 0,
    }
}

fn word_operand(k: u32) -> Operand32
    ensures { result ≡ word_operand k }
{
    if k < NEED_LIMIT { home(k) } else { spare() }
}

fn slot_operand(token: Tok, k: u32) -> Operand32
    ensures { result ≡ slot_operand token k }
{
    match token {
        Tok::Arg if 1 <= k && k <= 255 => argument_home(k),
        Tok::Arg => spare(),
        _ => word_operand(k),
    }
}

// The place whose address a longword of the frame or an argument holds.
fn slot_deferred(token: Tok, k: u32) -> Operand32
    ensures { result ≡ slot_deferred token k }
{
    match token {
        Tok::Arg if 1 <= k && k <= 255 => Operand32::Deferred(4 * (k - 1), Base32::Fp),
        Tok::Arg => spare(),
        _ if k < NEED_LIMIT => at_home(k),
        _ => spare(),
    }
}

fn leaf_deferred(leaf: Leaf) -> Operand32
    ensures { result ≡ leaf_deferred leaf.tok leaf.att }
{
    match leaf.att {
        Att::Slot(k) => slot_deferred(leaf.tok, k),
        _ => spare(),
    }
}

fn deferred_in(attr: &Attr<Operand32>) -> Operand32
    ensures { result ≡ deferred_in attr.now }
{
    match attr {
        Attr::Token(leaf) => leaf_deferred(*leaf),
        _ => spare(),
    }
}

impl<'a> Filling<'a> {
    /// What a hole stands for.
    pub fn attr_at(self, i: u8) -> &'a Attr<Operand32>
        ensures { result.now ≡ attr_at self.entry.holes.now self.entry.zero.now i }
    {
        if i == 0 {
            return self.zero;
        }
        self.holes.get(i as usize - 1).unwrap_or(self.zero)
    }

    // The number in an operand.
    fn number_filled(self, number: Number) -> u32
        ensures { result ≡ number_filled self.entry.holes.now self.entry.zero.now number }
    {
        match number {
            Number::Itself(n) => n,
            Number::Symbol(i) => number_in(self.attr_at(i)),
        }
    }

    // The address behind an object's label.
    fn object_addr(self, object: u32, offset: u32) -> Result<Addr, NoMemory>
        ensures { IfOk result (λ a. a ≡ object_addr self.entry.program.now object offset) }
    {
        let name = match self.program.objects.as_slice().get(object as usize) {
            Some(object) => Some(Name::from_vec(Vec::from_slice(
                self.alloc,
                object.label.as_slice(),
            )?)),
            None => None,
        };
        Ok(Addr { name, offset })
    }

    fn leaf_operand(self, leaf: Leaf) -> Result<Operand32, NoMemory>
        ensures { IfOk result (λ o. o ≡ leaf_operand self.entry.program.now leaf.tok leaf.att) }
    {
        match leaf.att {
            Att::Slot(k) => Ok(slot_operand(leaf.tok, k)),
            Att::Object { object, offset } => {
                Ok(Operand32::Addr(self.object_addr(object, offset)?))
            }
            Att::Number(n) => Ok(Operand32::Num(n)),
            _ => Ok(spare()),
        }
    }

    fn operand_in(self, attr: &Attr<Operand32>) -> Result<Operand32, NoMemory>
        ensures { IfOk result (λ o. o ≡ operand_in self.entry.program.now attr.now) }
    {
        match attr {
            Attr::Reg(n) => Ok(Operand32::Reg(*n)),
            Attr::InSlot(k) => Ok(word_operand(*k)),
            Attr::Value(o) => copied(self.alloc, o),
            Attr::Place(o) => copied(self.alloc, o),
            Attr::Ea(o) => copied(self.alloc, o),
            Attr::Con(n) => Ok(Operand32::Num(*n)),
            Attr::Token(leaf) => self.leaf_operand(*leaf),
            Attr::Nothing => Ok(spare()),
        }
    }

    /// An operand.
    #[tactic(auto, unfolding(l32_templates::specs::Filled::filled))]
    pub fn filled(self, form: Form) -> Result<Operand32, NoMemory>
        ensures { IfOk result (λ o. o ≡ filled self.entry.program.now self.entry.holes.now self.entry.zero.now form) }
    {
        match form {
            Form::RegisterZero => Ok(Operand32::Reg(0)),
            Form::Hole(i) => self.operand_in(self.attr_at(i)),
            Form::Immediate(n) => Ok(Operand32::Num(self.number_filled(n))),
            Form::Negative(i) => Ok(Operand32::Num(w32::neg(number_in(self.attr_at(i))))),
            Form::Displacement(n, i) => {
                let base = Base32::A(register_in(self.attr_at(i)));
                Ok(Operand32::At(self.number_filled(n), base))
            }
            Form::DisplacementDeferred(n, i) => {
                let base = Base32::A(register_in(self.attr_at(i)));
                Ok(Operand32::Deferred(self.number_filled(n), base))
            }
            Form::Deferred(i) => Ok(deferred_in(self.attr_at(i))),
        }
    }
}

/// A shape with its holes filled.
pub fn filled_operand(
    alloc: Global,
    program: &TreeProgram,
    shape: &[Piece],
    holes: &[Attr<Operand32>],
) -> Result<Operand32, NoMemory>
    ensures { IfOk result (λ o. o ≡ filled_operand program.now shape.now holes.now) }
{
    let filling = Filling {
        alloc,
        program,
        holes,
        zero: &Attr::Nothing,
    };
    match shape_of_pieces(alloc, shape) {
        Ok(form) => filling.filled(form),
        Err(Refusal::Wrong(_)) => Ok(spare()),
        Err(Refusal::NoMemory) => Err(NoMemory),
    }
}
