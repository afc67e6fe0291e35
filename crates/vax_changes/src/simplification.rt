// Operations that need no computing.

use crate::live::Live;
use crate::parts::{immediate, number, plain, with_two};
use crate::uses::effect_of;
use gg_base::{NoMemory, w32};
use std::alloc::Global;
use vax_core::{Addr, Base, Code, CodeItem, Instr, Op, Operand};
use vax_machine::function::{Action, Function, action_of};
use vax_validated::Change;
use vax_validated::copying::{copy_item, with_area_of};

/// Algebraic simplification and constant folding: an operation on two numbers, a sum with 0, a product with 1, and the like become a
/// `movl`, where nothing reads C behind it or C isn't changed. A quotient stays, since it may trap.
#[derive(Drop)]
pub struct Simplification;

/// What an operation comes to.
#[derive(Drop)]
enum Simple<'a> {
    Operand(&'a Operand),
    Made(Operand),
}

// What a function gives of two numbers.
fn folded(function: Function, a: u32, b: u32) -> Option<u32> {
    match function {
        Function::Add => Some(w32::add(a, b)),
        Function::Subtract => Some(w32::sub(b, a)),
        Function::Multiply => Some(w32::mul(a, b)),
        Function::BitSet => Some(w32::or(a, b)),
        Function::BitClear => Some(w32::and(b, w32::com(a))),
        Function::ExclusiveOr => Some(w32::xor(a, b)),
        _ => None,
    }
}

// Whether a function gives its second operand where the first one is this number.
fn is_neutral_first(function: Function, a: u32) -> bool {
    match function {
        Function::Add
        | Function::Subtract
        | Function::BitSet
        | Function::BitClear
        | Function::ExclusiveOr
        | Function::Shift => a == 0,
        Function::Multiply => a == 1,
        _ => false,
    }
}

// The same of the first operand where the second one is this number.
fn is_neutral_second(function: Function, b: u32) -> bool {
    match function {
        Function::Add | Function::BitSet | Function::ExclusiveOr => b == 0,
        Function::Multiply => b == 1,
        _ => false,
    }
}

// What a function of two operands comes to.
fn of_two<'a>(function: Function, a: &'a Operand, b: &'a Operand) -> Option<Simple<'a>> {
    let (first, second) = (number(a), number(b));
    if let (Some(first), Some(second)) = (first, second) {
        return Some(Simple::Made(immediate(folded(function, first, second)?)));
    }
    if first.is_some_and(|first| is_neutral_first(function, first)) {
        return Some(Simple::Operand(b));
    }
    if second.is_some_and(|second| is_neutral_second(function, second)) {
        return Some(Simple::Operand(a));
    }
    None
}

// The number that an instruction makes of a number.
fn of_number(op: Op, a: u32) -> Option<u32> {
    match op {
        Op::Mnegl => Some(w32::neg(a)),
        Op::Mcoml => Some(w32::com(a)),
        Op::Movzbl => Some(w32::zext8(a)),
        Op::Movzwl => Some(w32::zext16(a)),
        Op::Cvtbl => Some(w32::sext8(a)),
        Op::Cvtwl => Some(w32::sext16(a)),
        _ => None,
    }
}

// What an instruction with one source comes to: the address of what stands at a register is the register.
fn of_one(op: Op, a: &Operand) -> Option<Simple<'_>> {
    match (op, &a.base, a.index) {
        (Op::Movab | Op::Movaw | Op::Moval, Base::Def(r), None)
        | (
            Op::Movab | Op::Movaw | Op::Moval,
            Base::Disp(
                Addr {
                    name: None,
                    offset: 0,
                },
                r,
            ),
            None,
        ) => Some(Simple::Made(plain(Base::Reg(*r)))),
        _ => Some(Simple::Made(immediate(of_number(op, number(a)?)?))),
    }
}

// What an instruction comes to, and where that goes.
fn source_of(instr: &Instr) -> Option<(Simple<'_>, &Operand)> {
    match (action_of(instr.op), instr.operands.as_slice()) {
        (Action::Compute(function), [a, b, to]) => Some((of_two(function, a, b)?, to)),
        (Action::Compute(_), [a, to]) => Some((of_one(instr.op, a)?, to)),
        _ => None,
    }
}

// The move that an instruction comes to.
fn moving(alloc: Global, instr: &Instr) -> Result<Option<Instr>, NoMemory> {
    let Some((source, to)) = source_of(instr) else {
        return Ok(None);
    };
    match source {
        Simple::Operand(from) => Ok(Some(with_two(alloc, Op::Movl, from, to)?)),
        Simple::Made(from) => Ok(Some(with_two(alloc, Op::Movl, &from, to)?)),
    }
}

impl Simplification {
    // What stands in place of an item.
    fn item(
        &self,
        alloc: Global,
        live: &Live,
        place: usize,
        item: &CodeItem,
    ) -> Result<CodeItem, NoMemory> {
        let CodeItem::Instr(instr) = item else {
            return copy_item(alloc, item);
        };
        if effect_of(instr).writes.carry && live.behind(place, instr).carry {
            return copy_item(alloc, item);
        }
        match moving(alloc, instr)? {
            None => copy_item(alloc, item),
            Some(moving) => Ok(CodeItem::Instr(moving)),
        }
    }
}

impl Change for Simplification {
    fn change(&mut self, alloc: Global, code: &Code) -> Result<Code, NoMemory> {
        let items = code.items.as_slice();
        let live = Live::of(alloc, items)?;
        let mut changed = Vec::new(alloc);
        for (place, item) in items.iter().enumerate() {
            changed.push(self.item(alloc, &live, place, item)?)?;
        }
        with_area_of(alloc, code, changed)
    }
}
