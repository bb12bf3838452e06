// Where bytes are written.
ghost use Rattle.std.specs.Prelude.{◌≡◌, ◌++◌, ℕ, Option, Some, None, [], IsErrOf, IsOk, OnOk, OnErr, Err};
ghost use Rattle.outside_edge.specs.Sink.{SinkTold, CountsPut, Puts, fault_at};
ghost use Rattle.outside_edge.specs.MemSink.{Fills};

use std::alloc::Global;
use std::io;
use std::marker::Model;
use thiserror::Error;

/// Why a put didn't take its piece.
#[derive(Debug, Drop, Error)]
pub enum PutFault {
    /// The piece couldn't be written to its end.
    #[error("the bytes cannot be written")]
    Failed,
    /// Memory ran out.
    #[error("out of memory")]
    Memory,
}

/// Takes bytes, in order.
pub trait Sink {
    /// How many puts have failed: it rises exactly in a put that answers `Failed`. Where it stands at its
    /// type's end a put answers `Memory` in place of `Failed`.
    ghost faults: { Self → ℕ };

    /// The bytes taken so far and the room that is left, if it has a bound, where the sink tells them.
    ghost told: { Self → Option SinkTold };

    /// Takes the whole piece at `Ok`, a beginning of it at `Failed` and nothing of it at `Memory`.
    ///
    /// Where the sink tells its room, `Failed` comes exactly where the piece is longer than the room, but for
    /// want of memory, and the room falls by the bytes taken.
    fn put(&mut self, bytes: &[u8]) -> Result<(), PutFault>
        ensures cause { CountsPut (faults self.old) (faults self.new) result }
        ensures told { Puts (told self.old) (told self.new) bytes.now result };
}

// Counts a fault, where it can.
fn fail(faults: &mut u64) -> PutFault
    ensures counts { CountsPut {T = ℕ} faults.old faults.new (Err result) }
    ensures fault { result ≡ fault_at faults.old }
{
    match faults.checked_add(1) {
        Some(more) => {
            *faults = more;
            PutFault::Failed
        }
        None => PutFault::Memory,
    }
}

/// A sink in memory, which takes bytes up to its room and fails at the rest. It always tells them.
#[derive(Drop)]
pub struct MemSink {
    taken: Vec<u8>,
    room: Option<u64>,
    faults: u64,
}

impl Model for MemSink {
    ghost use Rattle.std.specs.Prelude.{ℕ, List, Option};
    ghost use Rattle.outside_edge.specs.MemSink.{SinkSeen};

    ghost Value = { SinkSeen };

    ghost view = { λ s. record {
      told = record { taken = s.taken.items; room = s.room };
      faults = s.faults;
    } };
}

impl MemSink {
    /// A sink with room for this many bytes, or without a bound.
    pub fn new(alloc: Global, room: Option<u64>) -> MemSink
        ensures told { result.told ≡ record { taken = []; room = room } }
        ensures faults { result.faults ≡ 0 }
    {
        MemSink {
            taken: Vec::new(alloc),
            room,
            faults: 0,
        }
    }

    /// The bytes taken so far.
    pub fn taken(&self) -> &[u8]
        ensures { result.now ≡ self.now.told.taken }
    {
        self.taken.as_slice()
    }
}

// Puts the bytes behind those taken before, or nothing of them.
fn append(taken: &mut Vec<u8>, bytes: &[u8]) -> Result<(), PutFault>
    ensures ok { OnOk result (taken.new.items ≡ taken.old.items ++ bytes.now) }
    ensures err { OnErr result (taken.new.items ≡ taken.old.items) }
    ensures memory { OnErr result (IsErrOf result PutFault.Memory) }
{
    match taken.extend_from_slice(bytes) {
        Ok(()) => Ok(()),
        Err(_) => Err(PutFault::Memory),
    }
}

impl Sink for MemSink {
    ghost faults = { λ s. s.faults };

    ghost told = { λ s. Some s.told };

    fn put(&mut self, bytes: &[u8]) -> Result<(), PutFault>
        ensures cause { CountsPut self.old.faults self.new.faults result }
        ensures told { Puts (Some self.old.told) (Some self.new.told) bytes.now result }

        // Of a piece that is too long it takes what there was room for.
        ensures full { IsErrOf result PutFault.Failed → Fills bytes.now self.old.told self.new.told }
    {
        let Some(room) = self.room else {
            return append(&mut self.taken, bytes);
        };
        let wanted = bytes.len() as u64;
        if wanted <= room {
            append(&mut self.taken, bytes)?;
            self.room = Some(room - wanted);
            return Ok(());
        }
        let Some(faults) = self.faults.checked_add(1) else {
            return Err(PutFault::Memory);
        };
        append(&mut self.taken, &bytes[..room as usize])?;
        self.room = Some(0);
        self.faults = faults;
        Err(PutFault::Failed)
    }
}

/// The standard output. What it took is not told. A put is `Failed` where the system doesn't take it all.
#[derive(Drop)]
pub struct StdSink<R> {
    rt: R,
    faults: u64,
}

impl<R> Model for StdSink<R> {
    ghost use Rattle.std.specs.Prelude.{ℕ};

    ghost Value = { ℕ };

    ghost view = { λ s. s.faults };
}

impl<R: Print> StdSink<R> {
    /// The standard output of this runtime.
    pub fn new(rt: R) -> StdSink<R>
        ensures { result ≡ 0 }
    {
        StdSink { rt, faults: 0 }
    }
}

// What a put answers to what was written: a fault where the system didn't take it all.
fn answer_of(wrote: io::Result<()>, faults: &mut u64) -> Result<(), PutFault>
    ensures counts { CountsPut faults.old faults.new result }
    ensures written { OnOk wrote (IsOk result) }
    ensures failed { OnErr wrote (result ≡ Err (fault_at faults.old)) }
{
    match wrote {
        Ok(()) => Ok(()),
        Err(_) => Err(fail(faults)),
    }
}

impl<R: Print> Sink for StdSink<R> {
    ghost faults = { λ s. s };

    ghost told = { λ _. None };

    fn put(&mut self, bytes: &[u8]) -> Result<(), PutFault> {
        answer_of(self.rt.write_all(bytes), &mut self.faults)
    }
}
