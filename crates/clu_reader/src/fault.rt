use thiserror::Error;

/// Why a program isn't typed.
#[derive(Debug, Drop, Error)]
pub enum CheckFault {
    /// A typing rule is broken. Carries the line of the part that breaks it, counted from 1.
    #[error("not typed: line {0}")]
    NotTyped(u32),
}

/// Why a text isn't accepted.
#[derive(Debug, Drop, Error)]
pub enum AcceptFault {
    /// The text is no program, or the program isn't typed. Carries the line of the fault, counted from 1.
    #[error("program refused at line {0}")]
    Refused(u32),
    #[error("out of memory")]
    Memory,
}
