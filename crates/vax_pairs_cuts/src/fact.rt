// Facts about the registers of two machines.
ghost use Rattle.std.specs.Prelude.{◌≡◌, ◌<◌, ◌^◌, map, IsTrue};
ghost use Rattle.vax_core.specs.Registers.{reg_number};
ghost use Rattle.vax_pairs_checked.specs.Accepted.{IsNamed, AreNamed};
ghost use Rattle.vax_pairs_cuts.specs.Views.{fact_of};

use vax_core::Reg;

/// The registers of which facts speak.
pub const GENERAL: [Reg; 12] = [
    Reg::R0,
    Reg::R1,
    Reg::R2,
    Reg::R3,
    Reg::R4,
    Reg::R5,
    Reg::R6,
    Reg::R7,
    Reg::R8,
    Reg::R9,
    Reg::R10,
    Reg::R11,
];

/// What is known of r0 to r11 of two machines at places that stand to each other.
#[derive(Clone, Copy, Debug, PartialEq, Eq)]
pub enum Fact {
    /// A register of the second machine has what a register of the first has.
    Equal { second: Reg, first: Reg },
    /// A register of the first machine has this number.
    First(Reg, u32),
    /// A register of the second machine has this number.
    Second(Reg, u32),
}

// Whether it is one of r0 to r11.
fn is_general(r: Reg) -> bool
    ensures { IsTrue result → reg_number r < 12 }
{
    r.number() < 12
}

// Whether a register is one of r0 to r11, where a longword is said of it.
fn has_longword(r: Reg, _v: u32) -> bool
    ensures { IsTrue result → (reg_number r < 12) × (_v < 2 ^ 32) }
{
    is_general(r)
}

impl Fact {
    /// Whether it speaks of r0 to r11 alone.
    pub fn is_named(self) -> bool
        ensures { IsTrue result → IsNamed (fact_of self) }
    {
        match self {
            Fact::Equal { second, first } => is_general(second) && is_general(first),
            Fact::First(r, v) | Fact::Second(r, v) => has_longword(r, v),
        }
    }
}

/// Whether these facts speak of r0 to r11 alone.
pub fn are_named(facts: &[Fact]) -> bool
    ensures { IsTrue result → AreNamed (map fact_of facts.now) }
{
    match facts {
        [] => true,
        [fact, facts @ ..] => fact.is_named() && are_named(facts),
    }
}
