ghost use Rattle.std.specs.Prelude.{◌≡◌, ◌<◌, ◌≤◌, length, true, false};
ghost use Rattle.std.specs.List.{AllWithin};

/// The copies of a packet that are on their way to a node.
#[derive(Debug, Drop)]
pub struct Copies {
    pub to: u32,
    pub from: u32,
    pub index: u64,
    pub left: u8,
}

impl Copies {
    ghost use Rattle.lossy_net.specs.Order.{precedes};

    /// Whether these stand before those of another packet: by node, then by sender, then by place.
    pub fn precede(&self, to: u32, from: u32, index: u64) -> bool
        ensures { result ≡ precedes to from index self.now }
    {
        (self.to, self.from, self.index) < (to, from, index)
    }
}

ghost use Rattle.lossy_net.specs.Copies.{copies_left};
ghost use Rattle.lossy_net.specs.Order.{precedes, AreInOrder, StandAt};

/// How many stand before those of a packet: the place at which these stand, or would.
pub fn place(copies: &[Copies], to: u32, from: u32, index: u64) -> usize
    requires { AreInOrder copies.now }
    ensures within { result ≤ length copies.now }
    ensures before { AllWithin (λ c. precedes to from index c ≡ true) copies.now 0 result }
    ensures behind { AllWithin (λ c. precedes to from index c ≡ false) copies.now result (length copies.now) }
    ensures there { 0 < copies_left copies.now to from index → StandAt copies.now to from index result }
{
    copies.partition_point(|c| c.precede(to, from, index))
}
