//! Why a packet could not be written or read.

ghost use Rattle.std.specs.Prelude.{◌≡◌};

use std::alloc::AllocError;
use thiserror::Error;

/// Memory ran out.
pub type Memory = AllocError;

/// Why bytes were not read.
#[derive(Debug, Drop, Error)]
pub enum WireFault {
    /// No packet has these bytes.
    #[error("no packet has these bytes")]
    Bad,
    /// Memory ran out.
    #[error("out of memory")]
    Memory,
}

impl From<AllocError> for WireFault {
    ghost use Rattle.packet_wire.specs.declared.fault.WireFault.TheVariants.{Memory};

    ghost from_gives = { λ _ e. e ≡ Memory };

    fn from(_e: AllocError) -> WireFault {
        WireFault::Memory
    }
}
