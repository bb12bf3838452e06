ghost use Rattle.std.specs.Prelude.{◌≡◌};

use std::alloc::AllocError;
use thiserror::Error;

/// Memory ran out.
pub type Memory = AllocError;

/// Why no line was taken.
#[derive(Clone, Copy, Debug, PartialEq, Eq, Drop, Error)]
pub enum LineFault {
    /// The bytes begin with no line of the grammar.
    #[error("not a line")]
    Bad,
    #[error("out of memory")]
    Memory,
}

impl From<AllocError> for LineFault {
    ghost use Rattle.journal_text.specs.declared.fault.LineFault.TheVariants.{Memory};

    ghost from_gives = { λ _ e. e ≡ Memory };

    fn from(_e: AllocError) -> LineFault {
        LineFault::Memory
    }
}

/// Why a journal was not read.
#[derive(Clone, Copy, Debug, PartialEq, Eq, Drop, Error)]
pub enum JournalFault {
    /// The first line, numbered from 1, that is not in the grammar or past the greatest number of lines.
    #[error("line {0} is not a line of a journal")]
    BadLine(u32),
    #[error("out of memory")]
    Memory,
}
