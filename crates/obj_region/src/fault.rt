ghost use Rattle.std.specs.Prelude.{◌≡◌};

use std::alloc::AllocError;
use thiserror::Error;

/// Memory ran out.
pub type Memory = AllocError;

/// Why a call on a store was refused. It left the store as it was.
#[derive(Clone, Copy, Debug, PartialEq, Eq, Drop, Error)]
pub enum RegionFault {
    /// The store has no room for one object more, or for its elements and fields.
    #[error("the store is full")]
    Full,
    /// The array has no element of this index.
    #[error("the index is out of bounds")]
    Bounds,
    /// The array's low or high would leave -2^62..2^62.
    #[error("the array is out of range")]
    Range,
    /// The object is below the mark, and may not change.
    #[error("the object may not change")]
    Old,
    /// Memory ran out.
    #[error("out of memory")]
    Memory,
}

impl From<AllocError> for RegionFault {
    ghost use Rattle.obj_region.specs.declared.fault.RegionFault.TheVariants.{Memory};

    ghost from_gives = { λ _ fault. fault ≡ Memory };

    fn from(_: AllocError) -> RegionFault {
        RegionFault::Memory
    }
}
