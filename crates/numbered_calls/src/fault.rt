ghost use Rattle.std.specs.Prelude.{◌≡◌};

use std::alloc::AllocFailed;
use thiserror::Error;

/// Why a call was not begun.
#[derive(Debug, Drop, Error)]
pub enum StartFault {
    /// The last number was given.
    #[error("no number is left")]
    Full,
    /// Memory ran out.
    #[error("out of memory")]
    Memory,
}

impl<T: Drop> From<AllocFailed<T>> for StartFault {
    ghost use Rattle.numbered_calls.specs.declared.fault.StartFault.TheVariants.{Memory};

    ghost from_gives = { λ _ e. e ≡ Memory };

    fn from(_e: AllocFailed<T>) -> StartFault {
        StartFault::Memory
    }
}
