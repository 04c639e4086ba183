ghost use Rattle.std.specs.Prelude.{◌≡◌};

use model::fault::Fault;
use std::alloc::AllocError;

// Why bytes are not opened, or a store is not written.
#[derive(Clone, Copy, PartialEq, Eq)]
pub enum ImageError {
    // they break a rule
    Fault(Fault),
    // there was no memory for the work
    NoMemory,
}

impl From<Fault> for ImageError {
    ghost use Rattle.image.specs.declared.error.ImageError.TheVariants.{Fault};

    ghost from_gives = { λ fault error. error ≡ Fault fault };

    fn from(fault: Fault) -> ImageError {
        ImageError::Fault(fault)
    }
}

impl From<AllocError> for ImageError {
    ghost use Rattle.image.specs.declared.error.ImageError.TheVariants.{NoMemory};

    ghost from_gives = { λ _ error. error ≡ NoMemory };

    fn from(_: AllocError) -> ImageError {
        ImageError::NoMemory
    }
}
