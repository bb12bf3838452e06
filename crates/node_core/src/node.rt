ghost use Rattle.std.specs.Prelude.{◌≡◌, ◌≢◌, ◌<◌, ◌^◌, [], Err, Some, IfOk, false, is_some};
ghost use Rattle.clu_tree.specs.Typed.{IsTyped};
ghost use Rattle.world_rules.specs.Plain.{node_at};
ghost use Rattle.world_rules.specs.Node.{due, first_of_program, is_quiet, picks};
ghost use Rattle.node_core.specs.Seen.{CanTick, CanTurn, TickAnswers, TurnAnswers};

use crate::limits::{add_limit, expire};
use crate::start::started;
use crate::turn::{PROCESS, Ran, run};
use clu_eval::{Memory, Process};
use clu_tree::Program;
use std::alloc::Global;
use std::marker::Model;
use thiserror::Error;
use timer_queue::{Owner, TimerQueue};
use world_types::Effects;

#[derive(Debug, Drop, Error)]
pub enum NodeFault {
    /// The event isn't possible at the node.
    #[error("the event isn't possible")]
    Illegal,
    #[error("out of memory")]
    Memory,
}

/// A node of an accepted program, which contracts see as what it keeps. Once a call has answered `Memory` it is spent,
/// and each later one that can answer `Memory` does.
#[derive(Drop)]
pub struct Node<'p> {
    program: &'p Program,
    number: u32,
    process: Option<Process>,
    limits: TimerQueue,
    picked: u64,
    time: u64,
    spent: bool,
}

impl<'p> Model for Node<'p> {
    ghost use Rattle.std.specs.Coded.{codes};
    ghost use Rattle.clu_tree.specs.contracts.shape.Shape as shape;
    ghost use Rattle.clu_tree.specs.contracts.tree.Expr as expr;
    ghost use Rattle.clu_tree.specs.contracts.shape.Named as named;
    ghost use Rattle.clu_tree.specs.contracts.tree.Stmt as stmt;
    ghost use Rattle.clu_tree.specs.contracts.tree.Arm as arm;
    ghost use Rattle.clu_tree.specs.contracts.tree.TagArm as tag_arm;
    ghost use Rattle.clu_tree.specs.contracts.tree.Handlers as handlers;
    ghost use Rattle.node_core.specs.Seen.{Keeps, NodeSeen, live, own_limit, state_of};

    ghost Value = { NodeSeen };

    ghost coded = { Prim.hlevel (
      codes,
      shape.the_row.coded,
      named.the_row.coded,
      expr.the_row.coded,
      stmt.the_row.coded,
      arm.the_row.coded,
      tag_arm.the_row.coded,
      handlers.the_row.coded,
    ) };

    ghost view = { λ n. record {
      program = n.program.now;
      state = state_of n.number (live n.process (own_limit n.limits)) n.picked n.time;
      spent = n.spent;
    } };

    ghost invariant = { λ n. Keeps n.program.now n.process n.limits n.spent };
}

impl<'p> Node<'p> {
    /// The node of this number, from 1, of an accepted program, at its start.
    pub fn new(alloc: Global, program: &'p Program, number: u32) -> Result<Node<'p>, Memory>
        requires typed { IsTyped program.now }
        requires is_node { number ≡ 1 }
        ensures program { IfOk result (λ node. node.program ≡ program.now) }
        ensures state { IfOk result (λ node. node_at (first_of_program program.now) number ≡ Some (node.state, [])) }
        ensures fresh { IfOk result (λ node. node.spent ≡ false) }
    {
        let limits = TimerQueue::new(alloc)?;
        let process = started(alloc, program)?;
        Ok(Node {
            program,
            number,
            process,
            limits,
            picked: 0,
            time: 0,
            spent: false,
        })
    }

    /// Takes the most steps of the picked process that are possible at the time `t`, in ms, and at most so many, and
    /// answers how many it took. `Illegal` comes exactly where none is possible, and changes nothing.
    pub fn turn(&mut self, alloc: Global, t: u64, most: u32) -> Result<(u32, Effects), NodeFault>
        requires early { t < 2 ^ 62 }
        ensures answers { TurnAnswers self.old self.new t most result }
        // A ready process can take a step where nothing is due.
        ensures goes_on { CanTurn self.old t most → result ≢ Err NodeFault.Illegal }
    {
        if self.spent {
            return Err(NodeFault::Memory);
        }
        if most == 0 || t < self.time || self.due(t) || !self.is_ready() {
            return Err(NodeFault::Illegal);
        }
        let Some(process) = self.process.take() else {
            unreachable!();
        };
        self.spent = true;
        let Ok(ran) = run(alloc, self.program, self.number, t, most.min(64), process) else {
            return Err(NodeFault::Memory);
        };
        let Ran {
            process,
            asleep,
            steps,
            effects,
        } = ran;
        let Ok(()) = add_limit(alloc, &mut self.limits, asleep) else {
            return Err(NodeFault::Memory);
        };
        self.process = process;
        self.picked = PROCESS;
        self.time = t;
        self.spent = false;
        Ok((steps, effects))
    }

    /// Advances the node to the time `t`, in ms: all limits at or before it expire, in their order. `Illegal` comes
    /// exactly where `t` is below the node's time or no limit is due, and changes nothing.
    pub fn tick(&mut self, alloc: Global, t: u64) -> Result<Effects, NodeFault>
        ensures answers { TickAnswers self.old self.new t result }
        ensures possible { CanTick self.old t → result ≢ Err NodeFault.Illegal }
    {
        if self.spent {
            return Err(NodeFault::Memory);
        }
        if t < self.time || !self.due(t) {
            return Err(NodeFault::Illegal);
        }
        self.spent = true;
        let Ok(effects) = expire(alloc, &mut self.limits, t) else {
            return Err(NodeFault::Memory);
        };
        self.time = t;
        self.spent = false;
        Ok(effects)
    }

    /// Whether some limit is at or before the time `t`, in ms.
    pub fn due(&self, t: u64) -> bool
        ensures { self.now.spent ≡ false → result ≡ due self.now.state t }
    {
        match self.limits.first() {
            Some((limit, _)) => limit <= t,
            None => false,
        }
    }

    /// Whether some process is ready.
    pub fn is_ready(&self) -> bool
        ensures { result ≡ is_some (picks self.now.state) }
    {
        self.process.is_some() && self.limits.limit(Owner::Process(PROCESS)).is_none()
    }

    /// Whether no process is ready and no limit stands.
    pub fn quiet(&self) -> bool
        ensures { self.now.spent ≡ false → result ≡ is_quiet self.now.state }
    {
        !self.is_ready() && self.limits.first().is_none()
    }
}
