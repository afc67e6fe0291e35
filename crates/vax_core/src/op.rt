// Mnemonics, and the table of the operands that each takes.
ghost use Rattle.std.specs.Prelude.{◌≡◌};
ghost use Rattle.vax_core.specs.Ops.{shape, shape_view};

use gg_base::Size;

/// A mnemonic.
#[derive(Clone, Copy, Debug, PartialEq, Eq)]
pub enum Op {
    Movb,
    Movw,
    Movl,
    Clrb,
    Clrw,
    Clrl,
    Mnegl,
    Mcoml,
    Pushl,
    Cvtbl,
    Cvtwl,
    Cvtlb,
    Cvtlw,
    Movzbl,
    Movzwl,
    Movab,
    Movaw,
    Moval,
    Addl2,
    Addl3,
    Subl2,
    Subl3,
    Mull2,
    Mull3,
    Divl2,
    Divl3,
    Incl,
    Decl,
    Bisl2,
    Bisl3,
    Bicl2,
    Bicl3,
    Xorl2,
    Xorl3,
    Bitl,
    Ashl,
    Cmpb,
    Cmpw,
    Cmpl,
    Tstb,
    Tstw,
    Tstl,
    Jbr,
    Jeql,
    Jneq,
    Jlss,
    Jleq,
    Jgtr,
    Jgeq,
    Jlssu,
    Jlequ,
    Jgtru,
    Jgequ,
    Calls,
    Ret,
}

/// What an instruction does with an operand (the access types of the VAX Architecture Handbook).
#[derive(Clone, Copy, Debug, PartialEq, Eq)]
pub enum Access {
    /// It is read.
    Read,
    /// It is read, then written.
    Modify,
    /// It is written.
    Write,
    /// Its address is taken.
    Address,
    /// It is the number of arguments of `calls`: `$n` with n from 0 to 255.
    Count,
}

/// What stands in one operand's place.
#[derive(Clone, Copy, Debug, PartialEq, Eq)]
pub struct OperandKind {
    pub access: Access,
    pub size: Size,
}

/// What stands behind a mnemonic: its operands from left to right, and whether a label follows them.
#[derive(Clone, Copy)]
pub struct Shape {
    pub mnemonic: &'static str,
    pub operands: &'static [OperandKind],
    pub target: bool,
}

const READ_BYTE: OperandKind = OperandKind {
    access: Access::Read,
    size: Size::Byte,
};

const READ_WORD: OperandKind = OperandKind {
    access: Access::Read,
    size: Size::Word,
};

const READ_LONG: OperandKind = OperandKind {
    access: Access::Read,
    size: Size::Long,
};

const MODIFY_LONG: OperandKind = OperandKind {
    access: Access::Modify,
    size: Size::Long,
};

const WRITE_BYTE: OperandKind = OperandKind {
    access: Access::Write,
    size: Size::Byte,
};

const WRITE_WORD: OperandKind = OperandKind {
    access: Access::Write,
    size: Size::Word,
};

const WRITE_LONG: OperandKind = OperandKind {
    access: Access::Write,
    size: Size::Long,
};

const ADDRESS_BYTE: OperandKind = OperandKind {
    access: Access::Address,
    size: Size::Byte,
};

const ADDRESS_WORD: OperandKind = OperandKind {
    access: Access::Address,
    size: Size::Word,
};

const ADDRESS_LONG: OperandKind = OperandKind {
    access: Access::Address,
    size: Size::Long,
};

const COUNT: OperandKind = OperandKind {
    access: Access::Count,
    size: Size::Long,
};

fn shape_of(mnemonic: &'static str, operands: &'static [OperandKind], target: bool) -> Shape
    ensures { shape_view result ≡ record { mnemonic = mnemonic.now; operands = operands.now; target = target } }
{
    Shape {
        mnemonic,
        operands,
        target,
    }
}

impl Op {
    /// The row of the instruction table.
    #[inline(always)]
    pub fn shape(self) -> Shape
        ensures { shape_view result ≡ shape self }
    {
        match self {
            Op::Movb => shape_of("movb", &[READ_BYTE, WRITE_BYTE], false),
            Op::Movw => shape_of("movw", &[READ_WORD, WRITE_WORD], false),
            Op::Movl => shape_of("movl", &[READ_LONG, WRITE_LONG], false),
            Op::Clrb => shape_of("clrb", &[WRITE_BYTE], false),
            Op::Clrw => shape_of("clrw", &[WRITE_WORD], false),
            Op::Clrl => shape_of("clrl", &[WRITE_LONG], false),
            Op::Mnegl => shape_of("mnegl", &[READ_LONG, WRITE_LONG], false),
            Op::Mcoml => shape_of("mcoml", &[READ_LONG, WRITE_LONG], false),
            Op::Pushl => shape_of("pushl", &[READ_LONG], false),
            Op::Cvtbl => shape_of("cvtbl", &[READ_BYTE, WRITE_LONG], false),
            Op::Cvtwl => shape_of("cvtwl", &[READ_WORD, WRITE_LONG], false),
            Op::Cvtlb => shape_of("cvtlb", &[READ_LONG, WRITE_BYTE], false),
            Op::Cvtlw => shape_of("cvtlw", &[READ_LONG, WRITE_WORD], false),
            Op::Movzbl => shape_of("movzbl", &[READ_BYTE, WRITE_LONG], false),
            Op::Movzwl => shape_of("movzwl", &[READ_WORD, WRITE_LONG], false),
            Op::Movab => shape_of("movab", &[ADDRESS_BYTE, WRITE_LONG], false),
            Op::Movaw => shape_of("movaw", &[ADDRESS_WORD, WRITE_LONG], false),
            Op::Moval => shape_of("moval", &[ADDRESS_LONG, WRITE_LONG], false),
            Op::Addl2 => shape_of("addl2", &[READ_LONG, MODIFY_LONG], false),
            Op::Addl3 => shape_of("addl3", &[READ_LONG, READ_LONG, WRITE_LONG], false),
            Op::Subl2 => shape_of("subl2", &[READ_LONG, MODIFY_LONG], false),
            Op::Subl3 => shape_of("subl3", &[READ_LONG, READ_LONG, WRITE_LONG], false),
            Op::Mull2 => shape_of("mull2", &[READ_LONG, MODIFY_LONG], false),
            Op::Mull3 => shape_of("mull3", &[READ_LONG, READ_LONG, WRITE_LONG], false),
            Op::Divl2 => shape_of("divl2", &[READ_LONG, MODIFY_LONG], false),
            Op::Divl3 => shape_of("divl3", &[READ_LONG, READ_LONG, WRITE_LONG], false),
            Op::Incl => shape_of("incl", &[MODIFY_LONG], false),
            Op::Decl => shape_of("decl", &[MODIFY_LONG], false),
            Op::Bisl2 => shape_of("bisl2", &[READ_LONG, MODIFY_LONG], false),
            Op::Bisl3 => shape_of("bisl3", &[READ_LONG, READ_LONG, WRITE_LONG], false),
            Op::Bicl2 => shape_of("bicl2", &[READ_LONG, MODIFY_LONG], false),
            Op::Bicl3 => shape_of("bicl3", &[READ_LONG, READ_LONG, WRITE_LONG], false),
            Op::Xorl2 => shape_of("xorl2", &[READ_LONG, MODIFY_LONG], false),
            Op::Xorl3 => shape_of("xorl3", &[READ_LONG, READ_LONG, WRITE_LONG], false),
            Op::Bitl => shape_of("bitl", &[READ_LONG, READ_LONG], false),
            Op::Ashl => shape_of("ashl", &[READ_BYTE, READ_LONG, WRITE_LONG], false),
            Op::Cmpb => shape_of("cmpb", &[READ_BYTE, READ_BYTE], false),
            Op::Cmpw => shape_of("cmpw", &[READ_WORD, READ_WORD], false),
            Op::Cmpl => shape_of("cmpl", &[READ_LONG, READ_LONG], false),
            Op::Tstb => shape_of("tstb", &[READ_BYTE], false),
            Op::Tstw => shape_of("tstw", &[READ_WORD], false),
            Op::Tstl => shape_of("tstl", &[READ_LONG], false),
            Op::Jbr => shape_of("jbr", &[], true),
            Op::Jeql => shape_of("jeql", &[], true),
            Op::Jneq => shape_of("jneq", &[], true),
            Op::Jlss => shape_of("jlss", &[], true),
            Op::Jleq => shape_of("jleq", &[], true),
            Op::Jgtr => shape_of("jgtr", &[], true),
            Op::Jgeq => shape_of("jgeq", &[], true),
            Op::Jlssu => shape_of("jlssu", &[], true),
            Op::Jlequ => shape_of("jlequ", &[], true),
            Op::Jgtru => shape_of("jgtru", &[], true),
            Op::Jgequ => shape_of("jgequ", &[], true),
            Op::Calls => shape_of("calls", &[COUNT], true),
            Op::Ret => shape_of("ret", &[], false),
        }
    }
}
