ghost use Rattle.std.specs.Prelude.{◌≡◌, ◌<◌, ◌≤◌, ◌↔◌, [], ◌∷◌, true, false, length, All, IfOk, OnOk, OnErr, IfSome, IsNone, IfNone, is_some, position, slice_get, Some, None};
ghost use Rattle.std.specs.List.{AllWithin};
ghost use Rattle.std.specs.Ordering.{is_lt};
ghost use Rattle.std.specs.Bool.{OnFalse};
ghost use Rattle.timer_queue.specs.Limits.{ChangesOnly, ExpiresBefore, IsQueue, expiry_order, kind_of, limit_of, number_of, same_owner, with_limit, without};

use std::alloc::{AllocError, Global};
use std::marker::Model;
use world_types::Owner;

/// Memory ran out.
pub type Memory = AllocError;

/// Time limits in ms, each with its owner, in the order in which they expire: by time, then processes before
/// once-calls before maybe-calls, then by number. An owner has one limit at most.
#[derive(Debug, Drop)]
pub struct TimerQueue {
    limits: Vec<(u64, Owner)>,
}

impl Model for TimerQueue {
    ghost use Rattle.std.specs.Prelude.{List};
    ghost use Rattle.timer_queue.specs.Limits.{Limit, IsQueue};

    ghost Value = { List Limit };

    ghost view = { λ q. q.limits.items };

    ghost invariant = { λ q. IsQueue q.limits.items };
}

impl TimerQueue {
    /// A queue without limits.
    pub fn new(alloc: Global) -> Result<TimerQueue, Memory>
        ensures empty { IfOk result (λ q. q ≡ []) }
        ensures queue { IfOk result IsQueue }
    {
        Ok(TimerQueue {
            limits: Vec::new(alloc),
        })
    }

    /// Adds the limit of an owner that has none. Without memory the queue stays as it was.
    pub fn add(&mut self, alloc: Global, limit: u64, owner: Owner) -> Result<(), Memory>
        requires { limit_of self.old owner ≡ None }
        ensures ok { OnOk result (self.new ≡ with_limit self.old (limit, owner)) }
        ensures limits { OnOk result (ChangesOnly self.old self.new owner (Some limit)) }
        ensures err { OnErr result (self.new ≡ self.old) }
        ensures queue { IsQueue self.new }
    {
        let place = self.place_for((limit, owner));
        self.limits.insert(place, (limit, owner))?;
        Ok(())
    }

    /// Takes away an owner's limit. False where it had none.
    pub fn remove(&mut self, owner: Owner) -> bool
        ensures found { result ≡ is_some (limit_of self.old owner) }
        ensures rest { self.new ≡ without self.old owner }
        ensures limits { ChangesOnly self.old self.new owner None }
        ensures unchanged { OnFalse result (self.new ≡ self.old) }
        ensures queue { IsQueue self.new }
    {
        match self.place_of(owner) {
            Some(place) => {
                self.limits.remove(place);
                true
            }
            None => false,
        }
    }

    /// The limit that expires first. None where there is no limit.
    pub fn first(&self) -> Option<(u64, Owner)>
        ensures first { result ≡ slice_get self.now 0 }
        ensures queue { IsQueue self.now }
    {
        self.limits.first().copied()
    }

    /// The time at which an owner's limit expires. None where it has no limit.
    pub fn limit(&self, owner: Owner) -> Option<u64>
        ensures limit { result ≡ limit_of self.now owner }
        ensures queue { IsQueue self.now }
    {
        let found = self.limits.iter().find(|limit| owner == limit.1);
        found.map(|limit| limit.0)
    }

    /// Takes away the limit that expires first, if its time is `t` or before. None where no limit is due at `t`.
    pub fn pop_due(&mut self, t: u64) -> Option<(u64, Owner)>
        ensures none { IsNone result ↔ All (λ l. t < l.0) self.old }
        ensures due { IfSome result (λ l. l.0 ≤ t) }
        ensures first { IfSome result (λ l. self.old ≡ l ∷ self.new) }
        ensures least { IfSome result (λ l. All (ExpiresBefore l) self.new) }
        ensures limits { IfSome result (λ l. ChangesOnly self.old self.new l.1 None) }
        ensures unchanged { IfNone result (self.new ≡ self.old) }
        ensures queue { IsQueue self.new }
    {
        let first = self.first()?;
        if t < first.0 {
            return None;
        }
        self.limits.remove(0);
        Some(first)
    }

    // Where a limit would stand: behind all that expire before it, and before all that don't.
    fn place_for(&self, new: (u64, Owner)) -> usize
        ensures place { result ≤ length self.now }
        ensures before { AllWithin (λ l. is_lt (expiry_order l new) ≡ true) self.now 0 result }
        ensures behind { AllWithin (λ l. is_lt (expiry_order l new) ≡ false) self.now result (length self.now) }
    {
        self.limits
            .partition_point(|other| expires_before(*other, new))
    }

    // Where an owner's limit stands.
    fn place_of(&self, owner: Owner) -> Option<usize>
        ensures { result ≡ position (λ l. same_owner owner l.1) self.now }
    {
        self.limits.iter().position(|limit| owner == limit.1)
    }
}

fn expires_before(a: (u64, Owner), b: (u64, Owner)) -> bool
    ensures { result ≡ is_lt (expiry_order a b) }
{
    (a.0, kind(a.1), number(a.1)) < (b.0, kind(b.1), number(b.1))
}

fn kind(owner: Owner) -> u8
    ensures { result ≡ kind_of owner }
{
    match owner {
        Owner::Process(_) => 0,
        Owner::Once(_) => 1,
        Owner::Maybe(_) => 2,
    }
}

fn number(owner: Owner) -> u64
    ensures { result ≡ number_of owner }
{
    match owner {
        Owner::Process(n) | Owner::Once(n) | Owner::Maybe(n) => n,
    }
}
