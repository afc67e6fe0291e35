// How a mnemonic is looked up.
ghost use Rattle.std.specs.Prelude.{◌≡◌};
ghost use Rattle.l32_core.specs.Mnemonics.{ops_with, among, op_of, IsOpOf};

use crate::Op32;

// The instructions whose mnemonic begins with the letter, so that a mnemonic is compared with few others.
fn ops_with(letter: u8) -> &'static [Op32]
    ensures { result.now ≡ ops_with letter }
{
    match letter {
        b'a' => &[Op32::Add, Op32::And],
        b'b' => &[
            Op32::B,
            Op32::Beq,
            Op32::Bne,
            Op32::Blt,
            Op32::Ble,
            Op32::Bgt,
            Op32::Bge,
            Op32::Bltu,
            Op32::Bleu,
            Op32::Bgtu,
            Op32::Bgeu,
        ],
        b'c' => &[Op32::Call],
        b'd' => &[Op32::Div],
        b'e' => &[Op32::Enter],
        b'l' => &[
            Op32::Lw,
            Op32::Li,
            Op32::La,
            Op32::Lb,
            Op32::Lbu,
            Op32::Lh,
            Op32::Lhu,
        ],
        b'm' => &[Op32::Mul],
        b'n' => &[Op32::Neg, Op32::Not],
        b'o' => &[Op32::Or],
        b'p' => &[Op32::Push],
        b'r' => &[Op32::Ret],
        b's' => &[
            Op32::Sw,
            Op32::Sub,
            Op32::Sb,
            Op32::Sh,
            Op32::Sta,
            Op32::Sll,
            Op32::Sra,
        ],
        b'x' => &[Op32::Xor],
        _ => &[],
    }
}

fn among(ops: &[Op32], word: &[u8]) -> Option<Op32>
    ensures { among ops.now word.now ≡ result }
{
    ops.iter()
        .find(|op| word == op.shape().mnemonic.as_bytes())
        .copied()
}

#[tactic(auto, unfolding(crate::specs::Mnemonics::op_of))]
fn op_of(word: &[u8]) -> Option<Op32>
    ensures { op_of word.now ≡ result }
{
    let [letter, ..] = word else {
        return None;
    };
    among(ops_with(*letter), word)
}

impl Op32 {
    /// The instruction of a mnemonic; none exactly where no instruction is written so.
    #[tactic(auto, using(crate::proofs::MnemonicLaws::op_is))]
    pub fn from_mnemonic(word: &[u8]) -> Option<Op32>
        ensures found { op_of word.now ≡ result }
        ensures is { IsOpOf word.now result }
    {
        op_of(word)
    }
}
