// Operands of templates with their holes filled.
ghost use Rattle.std.specs.Prelude.{◌≡◌, IfOk};
ghost use Rattle.vax_templates.specs.Filled.{alone, spare, attr_at, register_in, addr_number, object_addr, addr_of_att, addr_in};
ghost use Rattle.vax_templates.specs.Filled.{number_addr};
ghost use Rattle.vax_templates.specs.Filled.{word_operand, slot_operand, argument_deferred, slot_deferred, leaf_operand, operand_in};
ghost use Rattle.vax_templates.specs.Filled.{leaf_deferred, deferred_in, filled_base, with_index, filled, filled_operand};

use gg_base::limits::NEED_LIMIT;
use gg_base::{Name, NoMemory, w32};
use md_reader::Piece;
use sel_target::Attr;
use std::alloc::Global;
use tree_core::{Att, Leaf, Tok, TreeProgram};
use vax_core::{Addr, Base, Operand, Reg};
use vax_target_forms::instruction::shape_of_pieces;
use vax_target_forms::refusal::Refusal;
use vax_templates::{Base as FormBase, Form, Number};

/// What the holes of a template are filled with; the last is `%0`.
#[derive(Clone, Copy)]
pub struct Filling<'a> {
    pub alloc: Global,
    pub program: &'a TreeProgram,
    pub holes: &'a [Attr<Operand>],
    pub zero: &'a Attr<Operand>,
}

/// An operand without an index.
pub fn alone(base: Base) -> Operand
    ensures { result ≡ alone base }
{
    Operand { base, index: None }
}

// What stands where a hole has nothing that can be spelled there: `$0`.
fn spare() -> Operand
    ensures { result ≡ spare }
{
    alone(Base::Imm(addr_number(0)))
}

fn register_in(attr: &Attr<Operand>) -> Reg
    ensures { result ≡ register_in attr.now }
{
    match attr {
        Attr::Reg(n) => Reg::from_number(*n as usize).unwrap_or(Reg::R0),
        _ => Reg::R0,
    }
}

/// A number alone.
pub fn addr_number(n: u32) -> Addr
    ensures { result ≡ addr_number n }
{
    Addr {
        name: None,
        offset: n,
    }
}

fn word_operand(k: u32) -> Operand
    ensures { result ≡ word_operand k }
{
    if k < NEED_LIMIT {
        Operand::home(k)
    } else {
        spare()
    }
}

fn slot_operand(token: Tok, k: u32) -> Operand
    ensures { result ≡ slot_operand token k }
{
    match token {
        Tok::Arg if k <= 255 => Operand::argument_home(k),
        Tok::Arg => spare(),
        _ => word_operand(k),
    }
}

fn slot_deferred(token: Tok, k: u32) -> Operand
    ensures { result ≡ slot_deferred token k }
{
    match token {
        Tok::Arg if k <= 255 => alone(Base::DispDef(addr_number(4 * k), Reg::Ap)),
        Tok::Arg => spare(),
        _ if k < NEED_LIMIT => Operand::at_home(k),
        _ => spare(),
    }
}

impl<'a> Filling<'a> {
    /// What a hole stands for.
    pub fn attr_at(self, i: u8) -> &'a Attr<Operand>
        ensures { result.now ≡ attr_at self.entry.holes.now self.entry.zero.now i }
    {
        if i == 0 {
            return self.zero;
        }
        self.holes.get(i as usize - 1).unwrap_or(self.zero)
    }

    // The address behind an object's label.
    fn object_addr(self, object: u32, offset: u32) -> Result<Addr, NoMemory>
        ensures { IfOk result (λ a. a ≡ object_addr self.entry.program.now object offset) }
    {
        let name = match self.program.objects.as_slice().get(object as usize) {
            Some(object) => Some(Name::from_vec(Vec::from_slice(
                self.alloc,
                object.label.as_slice(),
            )?)),
            None => None,
        };
        Ok(Addr { name, offset })
    }

    fn addr_of_att(self, att: Att) -> Result<Addr, NoMemory>
        ensures { IfOk result (λ a. a ≡ addr_of_att self.entry.program.now att) }
    {
        match att {
            Att::Number(n) => Ok(addr_number(n)),
            Att::Object { object, offset } => self.object_addr(object, offset),
            _ => Ok(addr_number(0)),
        }
    }

    fn addr_in(self, attr: &Attr<Operand>) -> Result<Addr, NoMemory>
        ensures { IfOk result (λ a. a ≡ addr_in self.entry.program.now attr.now) }
    {
        match attr {
            Attr::Con(n) => Ok(addr_number(*n)),
            Attr::Token(leaf) => self.addr_of_att(leaf.att),
            _ => Ok(addr_number(0)),
        }
    }

    fn number_addr(self, number: Number) -> Result<Addr, NoMemory>
        ensures { IfOk result (λ a. a ≡ number_addr self.entry.program.now self.entry.holes.now self.entry.zero.now number) }
    {
        match number {
            Number::Itself(n) => Ok(addr_number(n)),
            Number::Symbol(i) => self.addr_in(self.attr_at(i)),
        }
    }

    fn leaf_operand(self, leaf: Leaf) -> Result<Operand, NoMemory>
        ensures { IfOk result (λ o. o ≡ leaf_operand self.entry.program.now leaf.tok leaf.att) }
    {
        match leaf.att {
            Att::Slot(k) => Ok(slot_operand(leaf.tok, k)),
            Att::Object { object, offset } => {
                Ok(alone(Base::Rel(self.object_addr(object, offset)?)))
            }
            Att::Number(n) => Ok(alone(Base::Imm(addr_number(n)))),
            _ => Ok(spare()),
        }
    }

    fn operand_in(self, attr: &Attr<Operand>) -> Result<Operand, NoMemory>
        ensures { IfOk result (λ o. o ≡ operand_in self.entry.program.now attr.now) }
    {
        match attr {
            Attr::Reg(_) => Ok(alone(Base::Reg(register_in(attr)))),
            Attr::InSlot(k) => Ok(word_operand(*k)),
            Attr::Value(o) => o.copy(self.alloc),
            Attr::Place(o) => o.copy(self.alloc),
            Attr::Ea(o) => o.copy(self.alloc),
            Attr::Con(n) => Ok(alone(Base::Imm(addr_number(*n)))),
            Attr::Token(leaf) => self.leaf_operand(*leaf),
            Attr::Nothing => Ok(spare()),
        }
    }

    fn leaf_deferred(self, leaf: Leaf) -> Result<Operand, NoMemory>
        ensures { IfOk result (λ o. o ≡ leaf_deferred self.entry.program.now leaf.tok leaf.att) }
    {
        match leaf.att {
            Att::Slot(k) => Ok(slot_deferred(leaf.tok, k)),
            Att::Object { object, offset } => {
                Ok(alone(Base::RelDef(self.object_addr(object, offset)?)))
            }
            _ => Ok(spare()),
        }
    }

    fn deferred_in(self, attr: &Attr<Operand>) -> Result<Operand, NoMemory>
        ensures { IfOk result (λ o. o ≡ deferred_in self.entry.program.now attr.now) }
    {
        match attr {
            Attr::Token(leaf) => self.leaf_deferred(*leaf),
            _ => Ok(spare()),
        }
    }

    #[tactic(auto, unfolding(vax_templates::specs::Filled::filled_base))]
    fn filled_base(self, base: FormBase) -> Result<Operand, NoMemory>
        ensures { IfOk result (λ o. o ≡ filled_base self.entry.program.now self.entry.holes.now self.entry.zero.now base) }
    {
        match base {
            FormBase::RegisterZero => Ok(alone(Base::Reg(Reg::R0))),
            FormBase::Hole(i) => self.operand_in(self.attr_at(i)),
            FormBase::Immediate(n) => Ok(alone(Base::Imm(self.number_addr(n)?))),
            FormBase::Negative(i) => {
                let a = self.addr_in(self.attr_at(i))?;
                Ok(alone(Base::Imm(addr_number(w32::neg(a.offset)))))
            }
            FormBase::RegisterDeferred(i) => Ok(alone(Base::Def(register_in(self.attr_at(i))))),
            FormBase::Displacement(n, i) => {
                let a = self.number_addr(n)?;
                Ok(alone(Base::Disp(a, register_in(self.attr_at(i)))))
            }
            FormBase::DisplacementDeferred(n, i) => {
                let a = self.number_addr(n)?;
                Ok(alone(Base::DispDef(a, register_in(self.attr_at(i)))))
            }
            FormBase::Absolute(n) => Ok(alone(Base::Abs(self.number_addr(n)?.offset))),
            FormBase::Deferred(i) => self.deferred_in(self.attr_at(i)),
        }
    }

    /// An operand.
    pub fn filled(self, form: Form) -> Result<Operand, NoMemory>
        ensures { IfOk result (λ o. o ≡ filled self.entry.program.now self.entry.holes.now self.entry.zero.now form) }
    {
        let mut o = self.filled_base(form.base)?;
        if let Some(i) = form.index {
            o.index = Some(register_in(self.attr_at(i)));
        }
        Ok(o)
    }
}

/// A shape with its holes filled.
pub fn filled_operand(
    alloc: Global,
    program: &TreeProgram,
    shape: &[Piece],
    holes: &[Attr<Operand>],
) -> Result<Operand, NoMemory>
    ensures { IfOk result (λ o. o ≡ filled_operand program.now shape.now holes.now) }
{
    let filling = Filling {
        alloc,
        program,
        holes,
        zero: &Attr::Nothing,
    };
    match shape_of_pieces(alloc, shape) {
        Ok(form) => filling.filled(form),
        Err(Refusal::Wrong(_)) => Ok(spare()),
        Err(Refusal::NoMemory) => Err(NoMemory),
    }
}
