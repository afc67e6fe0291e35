// The frame round a body of one instruction, item by item.
use crate::frame_code;
use gg_base::Name;
use l32_core::{Instr32, Item32, Op32, Operand32, Operands32};
use std::alloc::{AllocError, Global};
use std::test::Fail;
use tree_core::{LocalNumbers, TreeFn, TreeItems};

fn pushes(alloc: Global, n: u8) -> Result<Item32, AllocError> {
    let mut operands = Operands32::with_room(alloc, 1)?;
    operands.push(Operand32::Reg(n))?;
    Ok(Item32::Instr(Instr32 {
        op: Op32::Push,
        operands,
        target: None,
    }))
}

fn op_of(item: &Item32) -> Option<Op32> {
    match item {
        Item32::Instr(i) => Some(i.op),
        Item32::Label(_) => None,
    }
}

#[test]
fn frame_round_a_body(rt: HostRuntime) -> Result<(), Fail> {
    let alloc = rt.alloc();
    let f = TreeFn {
        name: Name::from_vec(Vec::from_slice(alloc, b"f")?),
        args: 0,
        locals: 1,
        wanted: LocalNumbers::from_vec(Vec::new(alloc)),
        items: TreeItems::from_vec(Vec::new(alloc)),
    };
    let Ok(code) = frame_code(alloc, &f, vec![in alloc; pushes(alloc, 3)?]?, 3) else {
        return Ok(());
    };
    let items = code.as_slice();
    assert_eq!(rt; items.len(), 5);
    assert!(rt; matches!(&items[0], Item32::Label(name) if name.as_slice() == b"_f".as_slice()));
    assert_eq!(rt; op_of(&items[1]), Some(Op32::Enter));
    assert_eq!(rt; op_of(&items[2]), Some(Op32::Push));
    assert_eq!(rt; op_of(&items[3]), Some(Op32::Li));
    assert_eq!(rt; op_of(&items[4]), Some(Op32::Ret));
    Ok(())
}
