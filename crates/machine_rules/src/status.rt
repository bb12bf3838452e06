use clu_tree::Addr;

/// What a live process does: it may take steps, or it waits.
#[derive(Clone, Copy, Debug, PartialEq, Eq)]
pub enum Status {
    Ready,
    /// Until its limit.
    Sleeping,
    /// For the lock at this address.
    InLock(Addr),
    /// For the semaphore at this address.
    InSem(Addr),
    /// For the answer to the once-call of this number.
    InOnce(u64),
    /// For the answer to the maybe-call of this number.
    InMaybe(u64),
}
