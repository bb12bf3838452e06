use std::alloc::AllocError;
use thiserror::Error;

/// Why a text wasn't read.
#[derive(Debug, Drop, Error)]
pub enum ReadFault {
    /// The text is no program. Carries the line where reading failed, counted from 1.
    #[error("no program: line {0}")]
    Syntax(u32),
    #[error("out of memory")]
    Memory,
}

impl From<AllocError> for ReadFault {
    ghost use Rattle.std.specs.Prelude.{◌≡◌};
    ghost use Rattle.clu_expr_reader.specs.declared.fault.ReadFault.TheVariants.{Memory};

    ghost from_gives = { λ _ e. e ≡ Memory };

    fn from(_: AllocError) -> ReadFault {
        ReadFault::Memory
    }
}
