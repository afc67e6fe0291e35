// A local that is cleared and pointed with, alone and with its address taken behind.
use crate::homed;
use gg_base::Name;
use std::alloc::{AllocError, Global};
use std::test::Fail;
use tree_core::{LocalNumbers, TreeFn, TreeItems};
use vax_core::{Base, CodeItem, Instr, Mode, Op, Operand, Operands, Reg};
use vax_frames::home;

fn instr(
    alloc: Global,
    op: Op,
    first: Operand,
    second: Option<Reg>,
) -> Result<CodeItem, AllocError> {
    let mut operands = Operands::with_room(alloc, 2)?;
    operands.push(first)?;
    if let Some(register) = second {
        operands.push(Operand {
            base: Base::Reg(register),
            index: None,
        })?;
    }
    Ok(CodeItem::Instr(Instr {
        op,
        operands,
        target: None,
    }))
}

fn mode_of(item: &CodeItem) -> Option<Mode> {
    match item {
        CodeItem::Instr(i) => Some(i.operands.as_slice().first()?.base.mode()),
        _ => None,
    }
}

fn function(alloc: Global) -> Result<TreeFn, AllocError> {
    Ok(TreeFn {
        name: Name::from_vec(Vec::from_slice(alloc, b"f")?),
        args: 0,
        locals: 1,
        wanted: LocalNumbers::from_vec(Vec::from_slice(alloc, &[0])?),
        items: TreeItems::from_vec(Vec::new(alloc)),
    })
}

// `clrl -4(fp)`, `movl *-4(fp),r0`
fn pointing(alloc: Global) -> Result<Vec<CodeItem>, Fail> {
    Ok(vec![in alloc;
        instr(alloc, Op::Clrl, home(0), None)?,
        instr(alloc, Op::Movl, Operand::at_home(0), Some(Reg::R0))?,
    ]?)
}

#[test]
fn a_local_lives_in_a_register(rt: HostRuntime) -> Result<(), Fail> {
    let alloc = rt.alloc();
    let f = function(alloc)?;
    let Ok(body) = homed(alloc, &f, pointing(alloc)?) else {
        return Ok(());
    };
    assert_eq!(rt; body.len(), 2);
    assert_eq!(rt; mode_of(&body[0]), Some(Mode::Register));
    assert_eq!(rt; mode_of(&body[1]), Some(Mode::RegisterDeferred));
    Ok(())
}

#[test]
fn a_local_whose_address_is_taken_stays(rt: HostRuntime) -> Result<(), Fail> {
    let alloc = rt.alloc();
    let f = function(alloc)?;
    let mut body = pointing(alloc)?;
    body.push(instr(alloc, Op::Movab, home(0), Some(Reg::R0))?)?;
    let Ok(body) = homed(alloc, &f, body) else {
        return Ok(());
    };
    assert_eq!(rt; body.len(), 3);
    assert_eq!(rt; mode_of(&body[0]), Some(Mode::Displacement));
    assert_eq!(rt; mode_of(&body[1]), Some(Mode::DisplacementDeferred));
    Ok(())
}
