ghost use Rattle.std.specs.Prelude.{◌≡◌, ℕ, ◌+◌, ◌-◌, ◌≤◌, List, [], Option, Some, None, IsSome, IsNone, IfSome, unwrap_or};
ghost use Rattle.world_types.specs.Rounds.{Round, opened, closed, cut};

use std::marker::Model;

/// What a node's clock keeps of the rounds that it was told: how long the closed ones lasted together, when the open
/// one opened, and the last stamp told. Stamps and readings are in ms.
#[derive(Debug, Drop)]
pub struct LogicalClock {
    total: u64,
    opening: Option<u64>,
    last: u64,
}

impl Model for LogicalClock {
    ghost use Rattle.std.specs.Prelude.{◌≡◌, ◌≤◌};
    ghost use Rattle.std.specs.Option.{ForSome};
    ghost use Rattle.logical_clock.specs.Kept.{Kept};

    ghost Value = { Kept };

    ghost view = { λ c. record { total = c.total; opening = c.opening; last = c.last } };

    ghost invariant = { λ c. (c.total ≤ c.last) × ForSome c.opening (λ a. a ≡ c.last) };
}

impl LogicalClock {
    ghost use Rattle.logical_clock.specs.Kept.{StandsFor};

    /// A clock that was told nothing yet.
    pub fn new() -> LogicalClock
        ensures { StandsFor result [] }
    {
        LogicalClock {
            total: 0,
            opening: None,
            last: 0,
        }
    }

    /// Tells that a round opens at the stamp `a`. No round is open, and `a` isn't below the last stamp told.
    pub fn tell_open(&mut self, a: u64)
        requires in_time { self.old.last ≤ a }
        requires none_open { IsNone self.old.opening }
        ensures values { self.new ≡ record self.old { opening = Some a; last = a } }
        ensures stands { (rounds : List Round) → StandsFor self.old rounds → StandsFor self.new (opened a rounds) }
    {
        self.opening = Some(a);
        self.last = a;
    }

    /// Tells that the open round closes at the stamp `b`, which isn't below the last stamp told.
    pub fn tell_close(&mut self, b: u64)
        requires in_time { self.old.last ≤ b }
        requires one_open { IsSome self.old.opening }
        ensures values { IfSome self.old.opening (λ a.
            self.new ≡ record { total = self.old.total + (b - a); opening = None; last = b }) }
        ensures stands { (rounds : List Round) → StandsFor self.old rounds → StandsFor self.new (closed b rounds) }
    {
        // While a round is open, the last stamp told is its opening.
        self.total += b - self.last;
        self.opening = None;
        self.last = b;
    }

    /// The logical time at `t`, which isn't below the last stamp told: `t` less the time halted before it. While a
    /// round is open, logical time stands still.
    pub fn read(&self, t: u64) -> u64
        requires { self.now.last ≤ t }
        ensures value { result ≡ unwrap_or self.now.opening t - self.now.total }
        ensures cut { (rounds : List Round) → StandsFor self.now rounds → result ≡ cut rounds t }
    {
        self.opening.unwrap_or(t) - self.total
    }
}
