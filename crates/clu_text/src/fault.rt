use std::alloc::AllocFailed;
use thiserror::Error;

/// Why a text has no tokens.
#[derive(Clone, Copy, Debug, PartialEq, Eq, Drop, Error)]
pub enum TextFault {
    /// No token begins at this byte, the first such. Carries its place, counted from 0.
    #[error("no token begins at byte {0}")]
    BadByte(u32),
    /// An int above 2^63-1 begins at this byte, the first such. Carries its place, counted from 0.
    #[error("the int at byte {0} is above 9223372036854775807")]
    Wide(u32),
    #[error("out of memory")]
    Memory,
}

impl<T: Drop> From<AllocFailed<T>> for TextFault {
    ghost use Rattle.std.specs.Prelude.{◌≡◌};
    ghost use Rattle.clu_text.specs.declared.fault.TextFault.TheVariants.{Memory};

    ghost from_gives = { λ _ e. e ≡ Memory };

    fn from(_: AllocFailed<T>) -> TextFault {
        TextFault::Memory
    }
}
