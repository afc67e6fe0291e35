// Why a template has no effect.
ghost use Rattle.std.specs.Prelude.{◌≡◌};
ghost use Rattle.sel_target.specs.Faults.{template_kind_name};

use gg_base::NoMemory;
use std::alloc::{AllocError, AllocFailed};

/// What is wrong in a line of a template or in its shape.
#[derive(Clone, Copy, Debug, PartialEq, Eq)]
pub enum TemplateKind {
    /// It is no instruction or operand with holes of kinds that stand there, or none that a template may have.
    NotInstr,
    /// A value, a place or an indexed shape stands where another size is read or written.
    WrongSize,
    /// A dividing line isn't the first, or an operand is read behind the first line that writes a result in its register.
    Order,
}

impl TemplateKind {
    /// Its name in a report.
    pub fn name(self) -> &'static str
        ensures { result.now ≡ template_kind_name self }
    {
        match self {
            TemplateKind::NotInstr => "NotInstr",
            TemplateKind::WrongSize => "WrongSize",
            TemplateKind::Order => "Order",
        }
    }
}

/// Why a rule, or a line that saves or reloads, has no effect.
#[derive(Clone, Copy, Debug, PartialEq, Eq)]
pub enum TargetFault {
    NoMemory,
    /// The line of the description with the fault, 0 where a rule has no line.
    At { line: u32, kind: TemplateKind },
}

impl From<NoMemory> for TargetFault {
    ghost use Rattle.std.specs.Prelude.{◌≡◌};
    ghost use Rattle.sel_target.specs.declared.fault.TargetFault.TheVariants as target_fault;

    ghost from_gives = { λ _ e. e ≡ target_fault.NoMemory };

    fn from(_: NoMemory) -> Self {
        TargetFault::NoMemory
    }
}

impl From<AllocError> for TargetFault {
    ghost use Rattle.std.specs.Prelude.{◌≡◌};
    ghost use Rattle.sel_target.specs.declared.fault.TargetFault.TheVariants as target_fault;

    ghost from_gives = { λ _ e. e ≡ target_fault.NoMemory };

    fn from(_: AllocError) -> Self {
        TargetFault::NoMemory
    }
}

impl<T: Drop> From<AllocFailed<T>> for TargetFault {
    ghost use Rattle.std.specs.Prelude.{◌≡◌};
    ghost use Rattle.sel_target.specs.declared.fault.TargetFault.TheVariants as target_fault;

    ghost from_gives = { λ _ e. e ≡ target_fault.NoMemory };

    fn from(_: AllocFailed<T>) -> Self {
        TargetFault::NoMemory
    }
}
