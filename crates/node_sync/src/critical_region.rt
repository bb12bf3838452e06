ghost use Rattle.std.specs.Prelude.{◌≡◌, ◌↔◌, [], IfOk, OnErr, IsNone, slice_get};
ghost use Rattle.node_sync.specs.Locks.{IsFree, IsHeld, IsHeldBy, IsLock, entered, free, left};

use crate::memory::Memory;
use std::alloc::Global;
use std::collections::VecDeque;
use std::marker::Model;

/// What a process that enters a lock gets.
#[derive(Clone, Copy, Debug, PartialEq, Eq)]
pub enum EnterEnd {
    /// The lock was free, and the process holds it now.
    Taken,
    /// The process holds the lock already.
    HeldByCaller,
    /// Another process holds the lock, and this one waits behind all that wait for it.
    Queued,
}

/// A lock: the process that holds it, and those that wait for it.
#[derive(Drop)]
pub struct Lock {
    holder: Option<u64>,
    waiting: VecDeque<u64>,
}

impl Model for Lock {
    ghost use Rattle.node_sync.specs.Locks.{LockState, IsLock, lock_code};

    ghost Value = { LockState };

    ghost coded = { lock_code };

    ghost view = { λ l. record { holder = l.holder; waiting = l.waiting.items } };

    ghost invariant = { λ l. IsLock (record { holder = l.holder; waiting = l.waiting.items }) };
}

impl Lock {
    /// A free lock, for which nobody waits.
    pub fn new(alloc: Global) -> Lock
        ensures free { result ≡ free }
        ensures lock { IsLock result }
    {
        Lock {
            holder: None,
            waiting: VecDeque::new(alloc),
        }
    }

    /// The process takes the lock, or waits for it behind all others. After want of memory the lock is as it was.
    pub fn enter(&mut self, _alloc: Global, pid: u64) -> Result<EnterEnd, Memory>
        ensures taken { IfOk result (λ end. (end ≡ EnterEnd.Taken) ↔ IsFree self.old) }
        ensures held { IfOk result (λ end. (end ≡ EnterEnd.HeldByCaller) ↔ IsHeldBy self.old pid) }
        ensures ok { IfOk result (λ end. self.new ≡ entered self.old pid end) }
        ensures err { OnErr result (self.new ≡ self.old) }
        ensures lock { IsLock self.new }
    {
        match self.holder {
            None => {
                self.holder = Some(pid);
                Ok(EnterEnd::Taken)
            }
            Some(holder) if holder == pid => Ok(EnterEnd::HeldByCaller),
            Some(_) => {
                self.waiting.push_back(pid)?;
                Ok(EnterEnd::Queued)
            }
        }
    }

    /// The holder gives the lock to the first that waits, which is answered. None exactly where nobody waits, and
    /// then the lock is free.
    pub fn leave(&mut self) -> Option<u64>
        requires { IsHeld self.old }
        ensures next { result ≡ slice_get self.old.waiting 0 }
        ensures none { IsNone result ↔ (self.old.waiting ≡ []) }
        ensures left { self.new ≡ left self.old }
        ensures lock { IsLock self.new }
    {
        self.holder = self.waiting.pop_front();
        self.holder
    }
}
