// The frame round a body of one instruction, item by item.
use crate::{frame_code, home};
use gg_base::Name;
use std::alloc::{AllocError, Global};
use std::test::Fail;
use tree_core::{LocalNumbers, TreeFn, TreeItems};
use vax_core::{Base, CodeItem, Instr, Mode, Op, Operand, Operands, Reg};

fn clears(alloc: Global, r: Reg) -> Result<CodeItem, AllocError> {
    let mut operands = Operands::with_room(alloc, 1)?;
    operands.push(Operand {
        base: Base::Reg(r),
        index: None,
    })?;
    Ok(CodeItem::Instr(Instr {
        op: Op::Clrl,
        operands,
        target: None,
    }))
}

fn op_of(item: &CodeItem) -> Option<Op> {
    match item {
        CodeItem::Instr(i) => Some(i.op),
        _ => None,
    }
}

#[test]
fn frame_round_a_body(rt: HostRuntime) -> Result<(), Fail> {
    let alloc = rt.alloc();
    let f = TreeFn {
        name: Name::from_vec(Vec::from_slice(alloc, b"f")?),
        args: 0,
        locals: 1,
        wanted: LocalNumbers::from_vec(Vec::new(alloc)),
        items: TreeItems::from_vec(Vec::new(alloc)),
    };
    let Ok(code) = frame_code(alloc, &f, vec![in alloc; clears(alloc, Reg::R3)?]?, 3) else {
        return Ok(());
    };
    let items = code.as_slice();
    assert_eq!(rt; items.len(), 7);
    assert!(rt; matches!(items[2], CodeItem::Mask(8)));
    assert_eq!(rt; op_of(&items[3]), Some(Op::Subl2));
    assert_eq!(rt; op_of(&items[4]), Some(Op::Clrl));
    assert_eq!(rt; op_of(&items[6]), Some(Op::Ret));
    let third = home(2);
    assert_eq!(rt; third.base.mode(), Mode::Displacement);
    assert_eq!(rt; third.base.offset(), 0xffff_fff4);
    Ok(())
}
