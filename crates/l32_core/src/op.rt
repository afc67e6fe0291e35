// Mnemonics, and the table of the operands that each takes.
ghost use Rattle.std.specs.Prelude.{◌≡◌};
ghost use Rattle.l32_core.specs.Ops.{shape, shape_view};

use gg_base::Size;

/// A mnemonic.
#[derive(Clone, Copy, Debug, PartialEq, Eq)]
pub enum Op32 {
    Li,
    La,
    Lb,
    Lbu,
    Lh,
    Lhu,
    Lw,
    Sb,
    Sh,
    Sw,
    Sta,
    Neg,
    Not,
    Add,
    Sub,
    Mul,
    Div,
    And,
    Or,
    Xor,
    Sll,
    Sra,
    Beq,
    Bne,
    Blt,
    Ble,
    Bgt,
    Bge,
    Bltu,
    Bleu,
    Bgtu,
    Bgeu,
    B,
    Push,
    Enter,
    Call,
    Ret,
}

/// What an instruction does with an operand, and so which operands may stand there.
#[derive(Clone, Copy, Debug, PartialEq, Eq)]
pub enum Role {
    /// A number, which it takes.
    Number,
    /// The number of a frame's longwords: `$n` with n from 0 to `NEED_LIMIT`.
    Words,
    /// The number of arguments of a call: `$n` with n from 0 to 255.
    Count,
    /// A register, which it writes.
    Destination,
    /// A register, which it reads.
    Register,
    /// A register or memory, which it reads at this size.
    Source(Size),
    /// Memory, which it writes at this size.
    Store(Size),
    /// Memory, whose address it takes.
    Address,
}

/// What stands in one place behind a mnemonic.
#[derive(Clone, Copy, Debug, PartialEq, Eq)]
pub enum Part {
    Operand(Role),
    /// A label of the code, or a service.
    Label,
}

/// What stands behind a mnemonic, from left to right.
#[derive(Clone, Copy)]
pub struct Shape32 {
    pub mnemonic: &'static str,
    pub parts: &'static [Part],
}

const NUMBER: Part = Part::Operand(Role::Number);

const WORDS: Part = Part::Operand(Role::Words);

const COUNT: Part = Part::Operand(Role::Count);

const DESTINATION: Part = Part::Operand(Role::Destination);

const REGISTER: Part = Part::Operand(Role::Register);

const SOURCE_BYTE: Part = Part::Operand(Role::Source(Size::Byte));

const SOURCE_WORD: Part = Part::Operand(Role::Source(Size::Word));

const SOURCE_LONG: Part = Part::Operand(Role::Source(Size::Long));

const STORE_BYTE: Part = Part::Operand(Role::Store(Size::Byte));

const STORE_WORD: Part = Part::Operand(Role::Store(Size::Word));

const STORE_LONG: Part = Part::Operand(Role::Store(Size::Long));

const ADDRESS: Part = Part::Operand(Role::Address);

fn shape_of(mnemonic: &'static str, parts: &'static [Part]) -> Shape32
    ensures { shape_view result ≡ record { mnemonic = mnemonic.now; parts = parts.now } }
{
    Shape32 { mnemonic, parts }
}

impl Op32 {
    /// The row of the instruction table.
    #[inline(always)]
    pub fn shape(self) -> Shape32
        ensures { shape_view result ≡ shape self }
    {
        match self {
            Op32::Li => shape_of("li", &[DESTINATION, NUMBER]),
            Op32::La => shape_of("la", &[DESTINATION, ADDRESS]),
            Op32::Lb => shape_of("lb", &[DESTINATION, SOURCE_BYTE]),
            Op32::Lbu => shape_of("lbu", &[DESTINATION, SOURCE_BYTE]),
            Op32::Lh => shape_of("lh", &[DESTINATION, SOURCE_WORD]),
            Op32::Lhu => shape_of("lhu", &[DESTINATION, SOURCE_WORD]),
            Op32::Lw => shape_of("lw", &[DESTINATION, SOURCE_LONG]),
            Op32::Sb => shape_of("sb", &[SOURCE_BYTE, STORE_BYTE]),
            Op32::Sh => shape_of("sh", &[SOURCE_WORD, STORE_WORD]),
            Op32::Sw => shape_of("sw", &[SOURCE_LONG, STORE_LONG]),
            Op32::Sta => shape_of("sta", &[ADDRESS, STORE_LONG]),
            Op32::Neg => shape_of("neg", &[DESTINATION, REGISTER]),
            Op32::Not => shape_of("not", &[DESTINATION, REGISTER]),
            Op32::Add => shape_of("add", &[DESTINATION, REGISTER, REGISTER]),
            Op32::Sub => shape_of("sub", &[DESTINATION, REGISTER, REGISTER]),
            Op32::Mul => shape_of("mul", &[DESTINATION, REGISTER, REGISTER]),
            Op32::Div => shape_of("div", &[DESTINATION, REGISTER, REGISTER]),
            Op32::And => shape_of("and", &[DESTINATION, REGISTER, REGISTER]),
            Op32::Or => shape_of("or", &[DESTINATION, REGISTER, REGISTER]),
            Op32::Xor => shape_of("xor", &[DESTINATION, REGISTER, REGISTER]),
            Op32::Sll => shape_of("sll", &[DESTINATION, REGISTER, REGISTER]),
            Op32::Sra => shape_of("sra", &[DESTINATION, REGISTER, REGISTER]),
            Op32::Beq => shape_of("beq", &[REGISTER, REGISTER, Part::Label]),
            Op32::Bne => shape_of("bne", &[REGISTER, REGISTER, Part::Label]),
            Op32::Blt => shape_of("blt", &[REGISTER, REGISTER, Part::Label]),
            Op32::Ble => shape_of("ble", &[REGISTER, REGISTER, Part::Label]),
            Op32::Bgt => shape_of("bgt", &[REGISTER, REGISTER, Part::Label]),
            Op32::Bge => shape_of("bge", &[REGISTER, REGISTER, Part::Label]),
            Op32::Bltu => shape_of("bltu", &[REGISTER, REGISTER, Part::Label]),
            Op32::Bleu => shape_of("bleu", &[REGISTER, REGISTER, Part::Label]),
            Op32::Bgtu => shape_of("bgtu", &[REGISTER, REGISTER, Part::Label]),
            Op32::Bgeu => shape_of("bgeu", &[REGISTER, REGISTER, Part::Label]),
            Op32::B => shape_of("b", &[Part::Label]),
            Op32::Push => shape_of("push", &[SOURCE_LONG]),
            Op32::Enter => shape_of("enter", &[WORDS]),
            Op32::Call => shape_of("call", &[Part::Label, COUNT]),
            Op32::Ret => shape_of("ret", &[]),
        }
    }
}
