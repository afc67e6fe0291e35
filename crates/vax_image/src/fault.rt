// Why a code has no image.
use std::alloc::AllocError;

/// Why a code was not encoded.
#[derive(Clone, Copy, Debug, PartialEq, Eq)]
pub enum ImageFault {
    NoMemory,
    /// The code can't be run.
    Unlinked,
    /// The text section has over 1,073,741,823 bytes, or there are over 4,294,967,295 marks or items of the data area.
    TooLarge,
}

impl From<AllocError> for ImageFault {
    ghost use Rattle.std.specs.Prelude.{◌≡◌};
    ghost use Rattle.vax_image.specs.declared.fault.ImageFault.TheVariants.{NoMemory};

    ghost from_gives = { λ _ e. e ≡ NoMemory };

    fn from(_: AllocError) -> Self {
        ImageFault::NoMemory
    }
}
