// Why a program is refused.
ghost use Rattle.std.specs.Prelude.{◌≡◌};

use std::alloc::{AllocError, AllocFailed};

/// What is wrong with the types, in the order that decides where two faults stand at one point.
#[derive(Clone, Copy, Debug, PartialEq, Eq)]
pub enum TypeKind {
    /// A name has no declaration in scope, or a called function has no definition.
    UnknownName,
    /// A name is declared again in its scope, a function is defined twice, or a service is defined.
    Twice,
    /// The called name is no function, or the number of arguments differs.
    BadCall,
    /// `break` or `continue` outside a loop.
    BadJump,
    /// A constant is wanted and there is none, or its value traps or is out of range.
    BadConst,
    /// An initialiser of the wrong form, with too many elements, or a missing length.
    BadInit,
    /// Operands that the table of operators doesn't have, or a type that can't stand there.
    BadType,
    /// An object ends behind the data area, or the memory locals of a function take more than 262,144 bytes.
    DataFull,
    /// No definition of `main` with result `int` and no parameter.
    NoMain,
}

/// Why a unit has no types: the first fault of the text, and the offset of the token that has it.
#[derive(Clone, Copy, Debug, PartialEq, Eq)]
pub enum TypeFault {
    NoMemory,
    At { place: u32, kind: TypeKind },
}

impl From<AllocError> for TypeFault {
    ghost use Rattle.std.specs.Prelude.{◌≡◌};
    ghost use Rattle.c_types.specs.declared.fault.TypeFault.TheVariants.{NoMemory};

    ghost from_gives = { λ _ e. e ≡ NoMemory };

    fn from(_: AllocError) -> Self {
        TypeFault::NoMemory
    }
}

impl<T: Drop> From<AllocFailed<T>> for TypeFault {
    ghost use Rattle.std.specs.Prelude.{◌≡◌};
    ghost use Rattle.c_types.specs.declared.fault.TypeFault.TheVariants.{NoMemory};

    ghost from_gives = { λ _ e. e ≡ NoMemory };

    fn from(_: AllocFailed<T>) -> Self {
        TypeFault::NoMemory
    }
}

/// The answer where something is wrong at the place.
pub fn refuse<T>(place: u32, kind: TypeKind) -> Result<T, TypeFault>
    ensures { result ≡ Err (TypeFault.At place kind) }
{
    Err(TypeFault::At { place, kind })
}

/// The answer where no row of the table of operators fits.
pub fn bad_type<T>(place: u32) -> Result<T, TypeFault>
    ensures { result ≡ Err (TypeFault.At place TypeKind.BadType) }
{
    refuse(place, TypeKind::BadType)
}
