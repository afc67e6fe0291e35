// How a mnemonic and a register's number are looked up.
ghost use Rattle.std.specs.Prelude.{◌≡◌, slice_get};
ghost use Rattle.vax_core.specs.Mnemonics.{ops_with, among, op_of, IsOpOf};
ghost use Rattle.vax_core.specs.Numbers.{registers, IsRegister};

use crate::{Op, Reg};

// The instructions whose mnemonic begins with the letter, so that a mnemonic is compared with few others.
fn ops_with(letter: u8) -> &'static [Op]
    ensures { result.now ≡ ops_with letter }
{
    match letter {
        b'a' => &[Op::Addl2, Op::Addl3, Op::Ashl],
        b'b' => &[Op::Bisl2, Op::Bisl3, Op::Bicl2, Op::Bicl3, Op::Bitl],
        b'c' => &[
            Op::Clrl,
            Op::Cmpl,
            Op::Calls,
            Op::Clrb,
            Op::Clrw,
            Op::Cvtbl,
            Op::Cvtwl,
            Op::Cvtlb,
            Op::Cvtlw,
            Op::Cmpb,
            Op::Cmpw,
        ],
        b'd' => &[Op::Divl2, Op::Divl3, Op::Decl],
        b'i' => &[Op::Incl],
        b'j' => &[
            Op::Jbr,
            Op::Jeql,
            Op::Jneq,
            Op::Jlss,
            Op::Jleq,
            Op::Jgtr,
            Op::Jgeq,
            Op::Jlssu,
            Op::Jlequ,
            Op::Jgtru,
            Op::Jgequ,
        ],
        b'm' => &[
            Op::Movl,
            Op::Movb,
            Op::Movw,
            Op::Mull2,
            Op::Mull3,
            Op::Moval,
            Op::Movab,
            Op::Movaw,
            Op::Movzbl,
            Op::Movzwl,
            Op::Mnegl,
            Op::Mcoml,
        ],
        b'p' => &[Op::Pushl],
        b'r' => &[Op::Ret],
        b's' => &[Op::Subl2, Op::Subl3],
        b't' => &[Op::Tstl, Op::Tstb, Op::Tstw],
        b'x' => &[Op::Xorl2, Op::Xorl3],
        _ => &[],
    }
}

fn among(ops: &[Op], word: &[u8]) -> Option<Op>
    ensures { among ops.now word.now ≡ result }
{
    ops.iter()
        .find(|op| word == op.shape().mnemonic.as_bytes())
        .copied()
}

#[tactic(auto, unfolding(crate::specs::Mnemonics::op_of))]
fn op_of(word: &[u8]) -> Option<Op>
    ensures { op_of word.now ≡ result }
{
    let [letter, ..] = word else {
        return None;
    };
    among(ops_with(*letter), word)
}

impl Op {
    /// The instruction of a mnemonic; none exactly where no instruction is written so.
    #[tactic(auto, using(crate::proofs::MnemonicLaws::op_is))]
    pub fn from_mnemonic(word: &[u8]) -> Option<Op>
        ensures found { op_of word.now ≡ result }
        ensures is { IsOpOf word.now result }
    {
        op_of(word)
    }
}

/// The registers in the order of their numbers.
const REGISTERS: [Reg; 15] = [
    Reg::R0,
    Reg::R1,
    Reg::R2,
    Reg::R3,
    Reg::R4,
    Reg::R5,
    Reg::R6,
    Reg::R7,
    Reg::R8,
    Reg::R9,
    Reg::R10,
    Reg::R11,
    Reg::Ap,
    Reg::Fp,
    Reg::Sp,
];

impl Reg {
    /// The register of a number, from 0 to 14; none behind that.
    #[tactic(auto, using(crate::proofs::NumberLaws::register_is))]
    pub fn from_number(n: usize) -> Option<Reg>
        ensures found { result ≡ slice_get registers n }
        ensures is { IsRegister n result }
    {
        REGISTERS.get(n).copied()
    }
}
