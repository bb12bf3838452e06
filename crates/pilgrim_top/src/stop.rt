//! How a run ends, and the text that it ends with.

ghost use Rattle.pilgrim_top.specs.Ends.{CountsPuts, Says};

use outside_edge::{PutFault, Sink};

/// Why a run stopped before its end.
#[derive(Clone, Copy, Debug, PartialEq, Eq)]
pub enum Stop {
    /// A file wasn't read.
    Unread,
    /// What was to be written was cut short.
    Cut,
    Memory,
}

/// Ends with a status, and a text that is written last.
pub fn say<K: Sink>(sink: &mut K, text: &[u8], status: u8) -> Result<u8, Stop>
    ensures counts { CountsPuts (K.faults sink.old) (K.faults sink.new) result }
    ensures says { Says text.now status (K.told sink.old) (K.told sink.new) result }
{
    match sink.put(text) {
        Ok(()) => Ok(status),
        Err(PutFault::Failed) => Err(Stop::Cut),
        Err(PutFault::Memory) => Err(Stop::Memory),
    }
}
