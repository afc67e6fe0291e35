// The opcode of each instruction, and the instruction of each.
ghost use Rattle.std.specs.Prelude.{◌≡◌};
ghost use Rattle.vax_image_format.specs.Opcodes.{opcode, opposite, is_branch, is_conditional, has_opcode, op_of};
ghost use Rattle.std.specs.List.{find};
ghost use Rattle.vax_machine.specs.Functions.{action_of};
ghost use Rattle.vax_machine.specs.Labels.{is_call};

use vax_core::Op;
use vax_machine::function::{Action, Test, action_of};

/// The opcode of an instruction.
pub fn opcode(op: Op) -> u8
    ensures { result ≡ opcode op }
{
    match op {
        Op::Movb => 0x90,
        Op::Movw => 0xb0,
        Op::Movl => 0xd0,
        Op::Clrb => 0x94,
        Op::Clrw => 0xb4,
        Op::Clrl => 0xd4,
        Op::Mnegl => 0xce,
        Op::Mcoml => 0xd2,
        Op::Pushl => 0xdd,
        Op::Cvtbl => 0x98,
        Op::Cvtwl => 0x32,
        Op::Cvtlb => 0xf6,
        Op::Cvtlw => 0xf7,
        Op::Movzbl => 0x9a,
        Op::Movzwl => 0x3c,
        Op::Movab => 0x9e,
        Op::Movaw => 0x3e,
        Op::Moval => 0xde,
        Op::Addl2 => 0xc0,
        Op::Addl3 => 0xc1,
        Op::Subl2 => 0xc2,
        Op::Subl3 => 0xc3,
        Op::Mull2 => 0xc4,
        Op::Mull3 => 0xc5,
        Op::Divl2 => 0xc6,
        Op::Divl3 => 0xc7,
        Op::Incl => 0xd6,
        Op::Decl => 0xd7,
        Op::Bisl2 => 0xc8,
        Op::Bisl3 => 0xc9,
        Op::Bicl2 => 0xca,
        Op::Bicl3 => 0xcb,
        Op::Xorl2 => 0xcc,
        Op::Xorl3 => 0xcd,
        Op::Bitl => 0xd3,
        Op::Ashl => 0x78,
        Op::Cmpb => 0x91,
        Op::Cmpw => 0xb1,
        Op::Cmpl => 0xd1,
        Op::Tstb => 0x95,
        Op::Tstw => 0xb5,
        Op::Tstl => 0xd5,
        Op::Jbr => 0x11,
        Op::Jeql => 0x13,
        Op::Jneq => 0x12,
        Op::Jlss => 0x19,
        Op::Jleq => 0x15,
        Op::Jgtr => 0x14,
        Op::Jgeq => 0x18,
        Op::Jlssu => 0x1f,
        Op::Jlequ => 0x1b,
        Op::Jgtru => 0x1a,
        Op::Jgequ => 0x1e,
        Op::Calls => 0xfb,
        Op::Ret => 0x04,
    }
}

/// The opcode of the branch on the opposite condition: opposites differ in the last bit.
pub fn opposite(op: Op) -> u8
    ensures { result ≡ opposite op }
{
    opcode(op) ^ 1
}

/// Whether an instruction is a branch.
pub fn is_branch(op: Op) -> bool
    ensures { result ≡ is_branch (action_of op) }
{
    match action_of(op) {
        Action::Branch(_) => true,
        Action::Compute(_) | Action::Push | Action::Call | Action::Return => false,
    }
}

/// Whether an instruction is a branch that goes on a condition.
pub fn is_conditional(op: Op) -> bool
    ensures { result ≡ is_conditional (action_of op) }
{
    match action_of(op) {
        Action::Branch(Test::Always) => false,
        Action::Branch(_) => true,
        Action::Compute(_) | Action::Push | Action::Call | Action::Return => false,
    }
}

/// Whether an instruction is a call.
pub fn is_call(op: Op) -> bool
    ensures { result ≡ is_call (action_of op) }
{
    match action_of(op) {
        Action::Call => true,
        Action::Compute(_) | Action::Push | Action::Branch(_) | Action::Return => false,
    }
}

const OPS: [Op; 55] = [
    Op::Movb,
    Op::Movw,
    Op::Movl,
    Op::Clrb,
    Op::Clrw,
    Op::Clrl,
    Op::Mnegl,
    Op::Mcoml,
    Op::Pushl,
    Op::Cvtbl,
    Op::Cvtwl,
    Op::Cvtlb,
    Op::Cvtlw,
    Op::Movzbl,
    Op::Movzwl,
    Op::Movab,
    Op::Movaw,
    Op::Moval,
    Op::Addl2,
    Op::Addl3,
    Op::Subl2,
    Op::Subl3,
    Op::Mull2,
    Op::Mull3,
    Op::Divl2,
    Op::Divl3,
    Op::Incl,
    Op::Decl,
    Op::Bisl2,
    Op::Bisl3,
    Op::Bicl2,
    Op::Bicl3,
    Op::Xorl2,
    Op::Xorl3,
    Op::Bitl,
    Op::Ashl,
    Op::Cmpb,
    Op::Cmpw,
    Op::Cmpl,
    Op::Tstb,
    Op::Tstw,
    Op::Tstl,
    Op::Jbr,
    Op::Jeql,
    Op::Jneq,
    Op::Jlss,
    Op::Jleq,
    Op::Jgtr,
    Op::Jgeq,
    Op::Jlssu,
    Op::Jlequ,
    Op::Jgtru,
    Op::Jgequ,
    Op::Calls,
    Op::Ret,
];

// The first of some instructions with an opcode.
fn among(ops: &[Op], b: u32) -> Option<Op>
    ensures { find (has_opcode b) ops.now ≡ result }
{
    ops.iter().find(|op| u32::from(opcode(**op)) == b).copied()
}

/// The instruction of an opcode; none where no instruction has it.
#[tactic(auto, unfolding(crate::specs::Opcodes::op_of))]
pub fn op_of(b: u32) -> Option<Op>
    ensures { op_of b ≡ result }
{
    among(&OPS, b)
}
