// What an operand spells: registers, and the frame's longword that it reads.
ghost use Rattle.std.specs.Prelude.{◌≡◌};
ghost use Rattle.vax_templates.specs.FrameWords.{word_below};
ghost use Rattle.l32_templates.specs.Spelled.{bit_of, base_bits, operand_bits, word_behind, word_of};

use gg_base::w32;
use l32_core::{Base32, Operand32};

// The bit of a register, of which there are twelve.
#[tactic(auto, using(crate::proofs::Bits::shifted))]
fn bit_of(n: u8) -> u16
    ensures { result ≡ bit_of n }
{
    if n < 12 { 1 << n } else { 0 }
}

fn base_bits(base: Base32) -> u16
    ensures { result ≡ base_bits base }
{
    match base {
        Base32::A(n) => bit_of(n),
        Base32::Fp | Base32::Sp => 0,
    }
}

/// The registers on which an operand depends: bit n for register n.
pub fn operand_bits(operand: &Operand32) -> u16
    ensures { result ≡ operand_bits operand.now }
{
    match operand {
        Operand32::Num(_) | Operand32::Addr(_) => 0,
        Operand32::Reg(n) => bit_of(*n),
        Operand32::At(_, base) => base_bits(*base),
        Operand32::Deferred(_, base) => base_bits(*base),
    }
}

fn word_below(n: u32) -> Option<u32>
    ensures { result ≡ word_below n }
{
    if 4 <= n && n <= 4096 && n % 4 == 0 {
        Some(n / 4 - 1)
    } else {
        None
    }
}

fn word_behind(base: Base32, n: u32) -> Option<u32>
    ensures { result ≡ word_behind base n }
{
    match base {
        Base32::Fp => word_below(w32::neg(n)),
        Base32::A(_) | Base32::Sp => None,
    }
}

/// The frame's longword that an operand reads, from 0.
pub fn word_of(operand: &Operand32) -> Option<u32>
    ensures { result ≡ word_of operand.now }
{
    match operand {
        Operand32::At(n, base) => word_behind(*base, *n),
        Operand32::Deferred(n, base) => word_behind(*base, *n),
        _ => None,
    }
}
