// Registers, and sets of general registers.
ghost use Rattle.std.specs.Prelude.{⊤, ◌≡◌, [], ◌∷◌, codes};
ghost use Rattle.vax_core.specs.Registers.{reg_text, reg_number, reg_bit};

use bitflags::{Flag, Flags, bitflag_items};

/// A register of 32 bits: a general one, the argument pointer, the frame pointer or the stack pointer.
#[derive(Clone, Copy, Debug, PartialEq, Eq)]
pub enum Reg {
    R0,
    R1,
    R2,
    R3,
    R4,
    R5,
    R6,
    R7,
    R8,
    R9,
    R10,
    R11,
    Ap,
    Fp,
    Sp,
}

impl Reg {
    /// How it is written.
    pub fn name(self) -> &'static str
        ensures { result.now ≡ reg_text self }
    {
        match self {
            Reg::R0 => "r0",
            Reg::R1 => "r1",
            Reg::R2 => "r2",
            Reg::R3 => "r3",
            Reg::R4 => "r4",
            Reg::R5 => "r5",
            Reg::R6 => "r6",
            Reg::R7 => "r7",
            Reg::R8 => "r8",
            Reg::R9 => "r9",
            Reg::R10 => "r10",
            Reg::R11 => "r11",
            Reg::Ap => "ap",
            Reg::Fp => "fp",
            Reg::Sp => "sp",
        }
    }

    /// Its number: N for rN, 12 for ap, 13 for fp, 14 for sp.
    pub fn number(self) -> usize
        ensures { result ≡ reg_number self }
    {
        match self {
            Reg::R0 => 0,
            Reg::R1 => 1,
            Reg::R2 => 2,
            Reg::R3 => 3,
            Reg::R4 => 4,
            Reg::R5 => 5,
            Reg::R6 => 6,
            Reg::R7 => 7,
            Reg::R8 => 8,
            Reg::R9 => 9,
            Reg::R10 => 10,
            Reg::R11 => 11,
            Reg::Ap => 12,
            Reg::Fp => 13,
            Reg::Sp => 14,
        }
    }

    /// The set of it alone where it is one of r0 to r11, else the empty set.
    pub fn set(self) -> RegSet
        ensures { result.0 ≡ reg_bit self }
    {
        match self {
            Reg::R0 => RegSet::R0,
            Reg::R1 => RegSet::R1,
            Reg::R2 => RegSet::R2,
            Reg::R3 => RegSet::R3,
            Reg::R4 => RegSet::R4,
            Reg::R5 => RegSet::R5,
            Reg::R6 => RegSet::R6,
            Reg::R7 => RegSet::R7,
            Reg::R8 => RegSet::R8,
            Reg::R9 => RegSet::R9,
            Reg::R10 => RegSet::R10,
            Reg::R11 => RegSet::R11,
            Reg::Ap | Reg::Fp | Reg::Sp => RegSet(0),
        }
    }
}

/// A set of the registers r0 to r11: bit N is there for rN, as in an entry mask.
#[derive(Clone, Copy, Debug, PartialEq, Eq)]
pub struct RegSet(u16);

bitflag_items! {
    impl RegSet: u16 {
        const R0 = 1;
        const R1 = 2;
        const R2 = 4;
        const R3 = 8;
        const R4 = 16;
        const R5 = 32;
        const R6 = 64;
        const R7 = 128;
        const R8 = 256;
        const R9 = 512;
        const R10 = 1024;
        const R11 = 2048;
    }
}

impl Flags for RegSet {
    type Bits = u16;

    ghost exact = { ⊤ };

    ghost table = { (codes "R0", 1) ∷ (codes "R1", 2) ∷ (codes "R2", 4) ∷ (codes "R3", 8) ∷ (codes "R4", 16) ∷ (codes "R5", 32)
        ∷ (codes "R6", 64) ∷ (codes "R7", 128) ∷ (codes "R8", 256) ∷ (codes "R9", 512) ∷ (codes "R10", 1024) ∷ (codes "R11", 2048) ∷ [] };

    ghost set_of = { λ s. s.0 };

    fn flags<'a>() -> &'a [Flag<RegSet>] {
        RegSet::FLAGS
    }

    fn bits(&self) -> u16 {
        self.0
    }

    fn from_bits_retain(bits: u16) -> RegSet {
        RegSet(bits)
    }
}
