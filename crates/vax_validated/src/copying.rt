// Copies of code.

use gg_base::{ListOf, Name, NoMemory};
use std::alloc::Global;
use vax_core::{AreaItem, Code, CodeItem, Instr, Operands};

fn copy_name(alloc: Global, name: &Name) -> Result<Name, NoMemory> {
    Ok(Name::copy_of(alloc, name.as_slice())?)
}

/// A copy of a target.
pub fn copy_target(alloc: Global, target: &Option<Name>) -> Result<Option<Name>, NoMemory> {
    match target {
        None => Ok(None),
        Some(name) => Ok(Some(copy_name(alloc, name)?)),
    }
}

fn copy_operands(alloc: Global, operands: &Operands) -> Result<Operands, NoMemory> {
    let mut copies = Operands::with_room(alloc, 3)?;
    for operand in operands.as_slice() {
        if copies.as_slice().len() < 3 {
            copies.push(operand.copy(alloc)?)?;
        }
    }
    Ok(copies)
}

/// A copy of an instruction.
pub fn copy_instr(alloc: Global, instr: &Instr) -> Result<Instr, NoMemory> {
    let operands = copy_operands(alloc, &instr.operands)?;
    let target = copy_target(alloc, &instr.target)?;
    Ok(Instr {
        op: instr.op,
        operands,
        target,
    })
}

/// A copy of an item of the code.
pub fn copy_item(alloc: Global, item: &CodeItem) -> Result<CodeItem, NoMemory> {
    match item {
        CodeItem::Label(name) => Ok(CodeItem::Label(copy_name(alloc, name)?)),
        CodeItem::Globl(name) => Ok(CodeItem::Globl(copy_name(alloc, name)?)),
        CodeItem::Mask(mask) => Ok(CodeItem::Mask(*mask)),
        CodeItem::Instr(instr) => Ok(CodeItem::Instr(copy_instr(alloc, instr)?)),
    }
}

fn copy_area_item(alloc: Global, item: &AreaItem) -> Result<AreaItem, NoMemory> {
    match item {
        AreaItem::Label(name) => Ok(AreaItem::Label(copy_name(alloc, name)?)),
        AreaItem::Globl(name) => Ok(AreaItem::Globl(copy_name(alloc, name)?)),
        AreaItem::Align(power) => Ok(AreaItem::Align(*power)),
        AreaItem::Byte(n) => Ok(AreaItem::Byte(*n)),
        AreaItem::Word(n) => Ok(AreaItem::Word(*n)),
        AreaItem::Long(a) => Ok(AreaItem::Long(a.copy(alloc)?)),
        AreaItem::Space(n) => Ok(AreaItem::Space(*n)),
    }
}

/// The code with these items, and a copy of another one's data area.
pub fn with_area_of(alloc: Global, code: &Code, items: Vec<CodeItem>) -> Result<Code, NoMemory> {
    let mut area = Vec::new(alloc);
    for item in code.area.as_slice() {
        area.push(copy_area_item(alloc, item)?)?;
    }
    Ok(Code {
        area: ListOf::from_vec(area),
        items: ListOf::from_vec(items),
    })
}

/// A copy of a code.
pub fn copy_code(alloc: Global, code: &Code) -> Result<Code, NoMemory> {
    let mut items = Vec::new(alloc);
    for item in code.items.as_slice() {
        items.push(copy_item(alloc, item)?)?;
    }
    with_area_of(alloc, code, items)
}
