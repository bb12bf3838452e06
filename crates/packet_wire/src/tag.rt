//! The bytes that say what stands behind them.

/// The kinds of packets.
pub(crate) const CALL: u8 = 1;

pub(crate) const REPLY: u8 = 2;

pub(crate) const MAYBE_CALL: u8 = 3;

pub(crate) const MAYBE_REPLY: u8 = 4;

/// How a body ended.
pub(crate) const VALUE: u8 = 0;

pub(crate) const RAISED: u8 = 1;

/// Whether an exception has a value.
pub(crate) const ABSENT: u8 = 0;

pub(crate) const PRESENT: u8 = 1;
