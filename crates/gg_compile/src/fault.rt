// Why a program has no code.

use gg_base::NoMemory;

/// Why no code is made of a program. Functions count from 0 in order of definition.
#[derive(Clone, Copy, Debug, PartialEq, Eq)]
pub enum CompileFault {
    NoMemory,
    /// The first function that needs more than `NEED_LIMIT` words of its frame, and how many it needs.
    FrameFull { function: u32, need: u32 },
}

impl From<NoMemory> for CompileFault {
    ghost use Rattle.std.specs.Prelude.{◌≡◌};
    ghost use Rattle.gg_compile.specs.declared.fault.CompileFault.TheVariants as faults;

    ghost from_gives = { λ _ e. e ≡ faults.NoMemory };

    fn from(_: NoMemory) -> Self {
        CompileFault::NoMemory
    }
}
