// A body with locals in registers.
ghost use Rattle.std.specs.Prelude.{◌≡◌, IfOk};
ghost use Rattle.vax_homes.specs.Homing.{register_at, home_at, homed_base, homed_operand, homed_instr, homed_item, homed};

use crate::choose::{Home, homes_of, is_fp, is_home_at};
use gg_base::NoMemory;
use std::alloc::Global;
use tree_core::TreeFn;
use vax_core::{Addr, Base, CodeItem, Instr, Operand, Operands, Reg};

// The register of the home whose word stands at a displacement from fp.
fn register_at(homes: &[Home], a: &Addr) -> Option<Reg>
    ensures { result ≡ register_at homes.now a.now }
{
    let home = homes.iter().find(|home| is_home_at(home.local, a))?;
    Some(home.register)
}

fn home_at(homes: &[Home], r: Reg, a: &Addr) -> Option<Reg>
    ensures { result ≡ home_at homes.now r a.now }
{
    if is_fp(r) {
        register_at(homes, a)
    } else {
        None
    }
}

// The home's register in place of its word, and that register deferred in place of what the word points at.
#[tactic(auto, using(crate::proofs::Homing::bases_become))]
fn homed_base(alloc: Global, homes: &[Home], base: &Base) -> Result<Base, NoMemory>
    ensures { IfOk result (λ new. new ≡ homed_base homes.now base.now) }
{
    match base {
        Base::Disp(a, r) => match home_at(homes, *r, a) {
            Some(home) => Ok(Base::Reg(home)),
            None => base.copy(alloc),
        },
        Base::DispDef(a, r) => match home_at(homes, *r, a) {
            Some(home) => Ok(Base::Def(home)),
            None => base.copy(alloc),
        },
        Base::Imm(_)
        | Base::Reg(_)
        | Base::Def(_)
        | Base::Inc(_)
        | Base::IncDef(_)
        | Base::Dec(_)
        | Base::Abs(_)
        | Base::Rel(_)
        | Base::RelDef(_) => base.copy(alloc),
    }
}

fn homed_operand(alloc: Global, homes: &[Home], o: &Operand) -> Result<Operand, NoMemory>
    ensures { IfOk result (λ new. new ≡ homed_operand homes.now o.now) }
{
    Ok(Operand {
        base: homed_base(alloc, homes, &o.base)?,
        index: o.index,
    })
}

fn homed_instr(alloc: Global, homes: &[Home], i: Instr) -> Result<Instr, NoMemory>
    ensures { IfOk result (λ new. new ≡ homed_instr homes.now i) }
{
    let old = i.operands.as_slice();
    let mut operands = Operands::with_room(alloc, old.len())?;
    for o in old {
        operands.push(homed_operand(alloc, homes, o)?)?;
    }
    Ok(Instr {
        op: i.op,
        operands,
        target: i.target,
    })
}

fn homed_item(alloc: Global, homes: &[Home], item: CodeItem) -> Result<CodeItem, NoMemory>
    ensures { IfOk result (λ new. new ≡ homed_item homes.now item) }
{
    match item {
        CodeItem::Instr(i) => Ok(CodeItem::Instr(homed_instr(alloc, homes, i)?)),
        CodeItem::Label(name) => Ok(CodeItem::Label(name)),
        CodeItem::Globl(name) => Ok(CodeItem::Globl(name)),
        CodeItem::Mask(mask) => Ok(CodeItem::Mask(mask)),
    }
}

/// The body of a function with those of its wanted locals in registers that may live there: the operand `-4(k+1)(fp)` of
/// each becomes its register, and `*-4(k+1)(fp)` that register deferred, the index kept. Where no local gets one, it is
/// the body itself.
pub fn homed(alloc: Global, f: &TreeFn, body: Vec<CodeItem>) -> Result<Vec<CodeItem>, NoMemory>
    ensures { IfOk result (λ new. new.items ≡ homed f.now.wanted body.items) }
{
    let homes = homes_of(alloc, f.wanted.as_slice(), &body)?;
    if homes.is_empty() {
        return Ok(body);
    }
    let mut items = Vec::with_capacity(alloc, body.len())?;
    for item in body {
        items.push(homed_item(alloc, &homes, item)?)?;
    }
    Ok(items)
}
