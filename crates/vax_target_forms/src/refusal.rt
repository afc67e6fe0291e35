// Why a line has no effect.

use gg_base::NoMemory;
use sel_target::TemplateKind;
use std::alloc::{AllocError, AllocFailed};

/// Why a line, or a part of one, has no effect.
#[derive(Clone, Copy, Debug, PartialEq, Eq)]
pub enum Refusal {
    NoMemory,
    Wrong(TemplateKind),
}

/// It is no instruction that stands there.
pub const NOT_INSTR: Refusal = Refusal::Wrong(TemplateKind::NotInstr);

impl From<NoMemory> for Refusal {
    ghost use Rattle.std.specs.Prelude.{◌≡◌};
    ghost use Rattle.vax_target_forms.specs.declared.refusal.Refusal.TheVariants as refusals;

    ghost from_gives = { λ _ e. e ≡ refusals.NoMemory };

    fn from(_: NoMemory) -> Self {
        Refusal::NoMemory
    }
}

impl From<AllocError> for Refusal {
    ghost use Rattle.std.specs.Prelude.{◌≡◌};
    ghost use Rattle.vax_target_forms.specs.declared.refusal.Refusal.TheVariants as refusals;

    ghost from_gives = { λ _ e. e ≡ refusals.NoMemory };

    fn from(_: AllocError) -> Self {
        Refusal::NoMemory
    }
}

impl<T: Drop> From<AllocFailed<T>> for Refusal {
    ghost use Rattle.std.specs.Prelude.{◌≡◌};
    ghost use Rattle.vax_target_forms.specs.declared.refusal.Refusal.TheVariants as refusals;

    ghost from_gives = { λ _ e. e ≡ refusals.NoMemory };

    fn from(_: AllocFailed<T>) -> Self {
        Refusal::NoMemory
    }
}
