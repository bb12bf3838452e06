ghost use Rattle.std.specs.Prelude.{◌≡◌, ◌↔◌, ℕ, ◌≤◌, [], Some, None, IsTrue, IsSome, IsNone, IfOk, OnOk, OnErr};
ghost use Rattle.std.specs.FinSet as set;

use crate::memory::Memory;
use crate::round::Round;
use std::alloc::Global;
use std::marker::Model;

/// Which nodes are halted, and the rounds that have opened and closed.
#[derive(Debug, Drop)]
pub struct Rounds {
    // By node: the first is node 1's.
    halted: Vec<bool>,
    rounds: Vec<Round>,
}

impl Model for Rounds {
    ghost use Rattle.halt_all.specs.Halting.{Halting, halting_code, halting_of};

    ghost Value = { Halting };

    ghost coded = { halting_code };

    ghost view = { λ r. halting_of r.halted.items r.rounds.items };
}

impl Rounds {
    ghost use Rattle.world_types.specs.Rounds.{opened, closed, opening};

    /// Nodes 1 to `nodes` run, and there was no round.
    pub fn new(alloc: Global, nodes: u32) -> Result<Rounds, Memory>
        ensures { IfOk result (λ rounds. rounds ≡ record { nodes = nodes; halted = set.empty; rounds = [] }) }
    {
        Ok(Rounds {
            halted: vec![in alloc; false; nodes as usize]?,
            rounds: Vec::new(alloc),
        })
    }

    /// A round opens at the stamp `a`. None is open before. For want of memory all stays as it was.
    pub fn start(&mut self, alloc: Global, a: u64) -> Result<(), Memory>
        requires { IsNone (opening self.old.rounds) }
        ensures ok { OnOk result (self.new ≡ record self.old { rounds = opened a self.old.rounds }) }
        ensures err { OnErr result (self.new ≡ self.old) }
    {
        self.rounds.push(Round::open_at(a))?;
        Ok(())
    }

    /// The node halts. Nodes are numbered from 1, and a round is open.
    pub fn halted(&mut self, node: u32)
        requires is_node { (1 ≤ node) × (node ≤ self.old.nodes) }
        requires one_open { IsSome (opening self.old.rounds) }
        ensures { self.new ≡ record self.old { halted = set.insert self.old.halted node } }
    {
        self.halted[node as usize - 1] = true;
    }

    /// The node goes on. Nodes are numbered from 1, and no round is open.
    pub fn resumed(&mut self, node: u32)
        requires is_node { (1 ≤ node) × (node ≤ self.old.nodes) }
        requires none_open { IsNone (opening self.old.rounds) }
        ensures { self.new ≡ record self.old { halted = set.remove self.old.halted node } }
    {
        self.halted[node as usize - 1] = false;
    }

    /// Whether each node is halted.
    pub fn all_halted(&self) -> bool
        ensures { IsTrue result
            ↔ ((node : ℕ) → 1 ≤ node → node ≤ self.now.nodes → IsTrue (set.contains self.now.halted node)) }
    {
        self.halted.iter().all(|halted| *halted)
    }

    /// The open round closes at the stamp `b`.
    pub fn finish(&mut self, b: u64)
        requires { IsSome (opening self.old.rounds) }
        ensures { self.new ≡ record self.old { rounds = closed b self.old.rounds } }
    {
        let newest = self.rounds.len() - 1;
        self.rounds[newest].close_at(b);
    }

    /// The stamp at which the open round opened, or `None` where no round is open.
    pub fn begun_at(&self) -> Option<u64>
        ensures { result ≡ opening self.now.rounds }
    {
        self.rounds.last()?.begun_at()
    }
}
