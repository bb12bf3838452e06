ghost use Rattle.std.specs.Prelude.{◌≡◌, ◌≤◌, ◌<◌, ◌^◌, [], ℕ, IfOk, false};
ghost use Rattle.clu_tree.specs.Typed.{IsTyped};
ghost use Rattle.debug_world.specs.Seen.{AnswersTo, MayBeApplied, refusal, ticked, turned};

use crate::conditions::{first_failing_of, is_between};
use clu_tree::Program;
use node_core::{Memory, Node, NodeFault};
use sqlite_items::Items;
use std::alloc::Global;
use std::marker::Model;
use thiserror::Error;
use world_rules::Condition;
use world_types::{Entry, Event, Told};

#[derive(Debug, Drop, Error)]
pub enum WorldFault {
    /// The entry isn't legal: the number of the first condition that fails.
    #[error("condition {0} of an entry fails")]
    Illegal(u8),
    #[error("out of memory")]
    Memory,
}

/// The nodes of an accepted program with what was applied to them, which contracts see as the program and the list of
/// the events applied. Once a call has answered `Memory` the world is spent, and each later one does.
#[derive(Drop)]
pub struct DebugWorld<'p> {
    node: Node<'p>,
    list: Items<Told>,
    last: u64,
    spent: bool,
}

impl<'p> Model for DebugWorld<'p> {
    ghost use Rattle.std.specs.Coded.{codes};
    ghost use Rattle.clu_tree.specs.contracts.shape.Shape as shape;
    ghost use Rattle.clu_tree.specs.contracts.shape.Named as named;
    ghost use Rattle.clu_tree.specs.contracts.tree.Expr as expr;
    ghost use Rattle.clu_tree.specs.contracts.tree.Stmt as stmt;
    ghost use Rattle.clu_tree.specs.contracts.tree.Arm as arm;
    ghost use Rattle.clu_tree.specs.contracts.tree.TagArm as tag_arm;
    ghost use Rattle.clu_tree.specs.contracts.tree.Handlers as handlers;
    ghost use Rattle.debug_world.specs.Seen.{Keeps, Seen};

    ghost Value = { Seen };

    ghost coded = { Prim.hlevel (
      codes,
      shape.the_row.coded,
      named.the_row.coded,
      expr.the_row.coded,
      stmt.the_row.coded,
      arm.the_row.coded,
      tag_arm.the_row.coded,
      handlers.the_row.coded,
    ) };

    ghost view = { λ w. record { program = w.node.program; list = w.list; spent = w.spent } };

    ghost invariant = { λ w. Keeps w.node w.list w.last w.spent };
}

impl<'p> DebugWorld<'p> {
    /// The nodes of an accepted program at their start.
    pub fn new(alloc: Global, program: &'p Program) -> Result<DebugWorld<'p>, Memory>
        requires { IsTyped program.now }
        ensures fresh { IfOk result (λ world. world ≡ record { program = program.now; list = []; spent = false }) }
    {
        let node = Node::new(alloc, program, 1)?;
        Ok(DebugWorld {
            node,
            list: Items::new(alloc),
            last: 0,
            spent: false,
        })
    }

    /// Applies a turn, whose steps are the most that it may take, or a tick, where it is legal after the list so far,
    /// and gives its entry. `Illegal` has the number of the first condition that fails, and changes nothing.
    pub fn apply(&mut self, alloc: Global, told: &Told) -> Result<Entry, WorldFault>
        requires event { MayBeApplied told.now.event }
        requires early { told.now.stamp < 2 ^ 62 }
        ensures { AnswersTo self.old self.new told.now result }
    {
        match &told.event {
            Event::Turn {
                node,
                steps,
                reading,
            } => self.turn(alloc, told.stamp, *node, *steps, *reading),
            Event::Tick { node } => self.tick(alloc, told.stamp, *node),
            _ => unreachable!(),
        }
    }

    /// Applies a turn.
    fn turn(
        &mut self,
        alloc: Global,
        stamp: u64,
        node: u32,
        steps: u32,
        reading: u64,
    ) -> Result<Entry, WorldFault>
        requires some { 1 ≤ steps }
        requires few { steps ≤ 64 }
        requires early { stamp < 2 ^ 62 }
        ensures { AnswersTo self.old self.new (turned stamp node steps reading) result }
    {
        if self.spent {
            return Err(WorldFault::Memory);
        }
        if let Some(number) = self.turn_refusal(stamp, node, reading) {
            return Err(WorldFault::Illegal(number));
        }
        self.spent = true;
        let (steps, effects) = match self.node.turn(alloc, reading, steps) {
            Ok(taken) => taken,
            Err(NodeFault::Illegal) => unreachable!(),
            Err(NodeFault::Memory) => return Err(WorldFault::Memory),
        };
        let told = Told {
            stamp,
            event: Event::Turn {
                node,
                steps,
                reading,
            },
        };
        let Ok(()) = self.list.push(told) else {
            return Err(WorldFault::Memory);
        };
        self.last = stamp;
        self.spent = false;
        Ok(Entry {
            stamp,
            event: Event::Turn {
                node,
                steps,
                reading,
            },
            effects,
        })
    }

    /// Applies a tick.
    fn tick(&mut self, alloc: Global, stamp: u64, node: u32) -> Result<Entry, WorldFault>
        ensures { AnswersTo self.old self.new (ticked stamp node) result }
    {
        if self.spent {
            return Err(WorldFault::Memory);
        }
        if let Some(number) = self.tick_refusal(stamp, node) {
            return Err(WorldFault::Illegal(number));
        }
        self.spent = true;
        let effects = match self.node.tick(alloc, stamp) {
            Ok(effects) => effects,
            Err(NodeFault::Illegal) => unreachable!(),
            Err(NodeFault::Memory) => return Err(WorldFault::Memory),
        };
        let Ok(()) = self.list.push(Told {
            stamp,
            event: Event::Tick { node },
        })
        else {
            return Err(WorldFault::Memory);
        };
        self.last = stamp;
        self.spent = false;
        Ok(Entry {
            stamp,
            event: Event::Tick { node },
            effects,
        })
    }

    /// The number of the first condition that refuses a turn.
    fn turn_refusal(&self, stamp: u64, node: u32, reading: u64) -> Option<u8>
        requires { self.now.spent ≡ false }
        ensures { (steps : ℕ) → result ≡ refusal self.now (turned stamp node steps reading) }
    {
        first_failing_of(&[
            (Condition::StampRises, self.last <= stamp),
            (Condition::NamesNodes, node == 1),
            (
                Condition::ReadsInTime,
                is_between(self.last, reading, stamp),
            ),
            (Condition::DueFits, !self.node.due(reading)),
            (Condition::CanStep, self.node.is_ready()),
        ])
    }

    /// The number of the first condition that refuses a tick.
    fn tick_refusal(&self, stamp: u64, node: u32) -> Option<u8>
        requires { self.now.spent ≡ false }
        ensures { result ≡ refusal self.now (ticked stamp node) }
    {
        first_failing_of(&[
            (Condition::StampRises, self.last <= stamp),
            (Condition::NamesNodes, node == 1),
            (Condition::DueFits, self.node.due(stamp)),
        ])
    }
}
