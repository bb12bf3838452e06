ghost use Rattle.std.specs.Prelude.{◌≡◌, Some, None};

use std::marker::Model;

/// Opens at one stamp and closes at another, unless it is still open.
#[derive(Debug, Drop)]
pub struct Round {
    opens: u64,
    closes: Option<u64>,
}

impl Model for Round {
    ghost use Rattle.world_types.specs.Rounds as said;

    ghost Value = { said.Round };

    ghost view = { λ r. record { opens = r.opens; closes = r.closes } };
}

impl Round {
    ghost use Rattle.world_types.specs.Rounds.{opening_of};

    /// A round that opens at this stamp.
    pub fn open_at(a: u64) -> Round
        ensures { result ≡ record { opens = a; closes = None } }
    {
        Round {
            opens: a,
            closes: None,
        }
    }

    /// The stamp at which it opened, if it is still open.
    pub fn begun_at(&self) -> Option<u64>
        ensures { result ≡ opening_of self.now.opens self.now.closes }
    {
        match self.closes {
            None => Some(self.opens),
            Some(_) => None,
        }
    }

    /// It closes at this stamp.
    pub fn close_at(&mut self, b: u64)
        ensures { self.new ≡ record self.old { closes = Some b } }
    {
        self.closes = Some(b);
    }
}
