ghost use Rattle.std.specs.Prelude.{◌≡◌, [], ◌∷◌, ◌++◌, IfOk, OnOk, OnErr};

use crate::memory::Memory;
use std::alloc::Global;
use std::marker::Model;
use std::mem;

/// The packets that reached a halted node, in order: of each the sender and its place among those that the sender sent.
#[derive(Debug, Drop)]
pub struct Held {
    packets: Vec<(u32, u64)>,
}

impl Model for Held {
    ghost use Rattle.std.specs.Prelude.{List, ℕ};

    ghost Value = { List (ℕ × ℕ) };

    ghost view = { λ h. h.packets.items };
}

impl Held {
    /// No packet is held.
    pub fn new(alloc: Global) -> Result<Held, Memory>
        ensures { IfOk result (λ held. held ≡ []) }
    {
        Ok(Held {
            packets: Vec::new(alloc),
        })
    }

    /// Holds one packet more, behind the others. For want of memory the list stays as it was.
    pub fn push(&mut self, alloc: Global, from: u32, index: u64) -> Result<(), Memory>
        ensures ok { OnOk result (self.new ≡ self.old ++ (from, index) ∷ []) }
        ensures err { OnErr result (self.new ≡ self.old) }
    {
        self.packets.push((from, index))?;
        Ok(())
    }

    /// Hands out all held packets, the first first, and holds none from then on. Takes no memory.
    pub fn take_all(&mut self) -> Vec<(u32, u64)>
        ensures all { result.items ≡ self.old }
        ensures none_left { self.new ≡ [] }
    {
        let alloc = *self.packets.allocator();
        mem::replace(&mut self.packets, Vec::new(alloc))
    }
}
